ghost use Rattle.std.specs.Prelude.{◌≡◌, ◌++◌, IfOk};
ghost use Rattle.scenario_text.specs.Texts.{shown_text, stamp_text, behind_commas};

use crate::reply_text::{joined, write_value};
use std::alloc::{AllocError, Global};

/// What a process shows: its stamp, and the bytes of a run, without a line end.
pub fn write_shown(alloc: Global, stamp: &[u64], bytes: &[u8]) -> Result<Vec<u8>, AllocError>
    ensures { IfOk result (λ text. text.items ≡ shown_text stamp.now bytes.now) }
{
    let mut text = Vec::from_slice(alloc, b"shown ")?;
    text.extend_from_slice(&write_stamp(alloc, stamp)?)?;
    text.extend_from_slice(b" ")?;
    joined(text, &write_value(alloc, bytes)?)
}

/// The numbers of a stamp, joined by commas.
fn write_stamp(alloc: Global, stamp: &[u64]) -> Result<Vec<u8>, AllocError>
    ensures { IfOk result (λ text. text.items ≡ stamp_text stamp.now) }
{
    match stamp {
        [] => Ok(Vec::new(alloc)),
        [first, numbers @ ..] => {
            let text = format!(in alloc; "{first}")?.into_bytes();
            write_numbers(alloc, text, numbers)
        }
    }
}

/// The text, and then numbers, each behind a comma.
fn write_numbers(alloc: Global, mut text: Vec<u8>, numbers: &[u64]) -> Result<Vec<u8>, AllocError>
    ensures { IfOk result (λ written. written.items ≡ text.items ++ behind_commas numbers.now) }
{
    'numbers: for number in numbers {
        text.extend_from_slice(format!(in alloc; ",{number}")?.as_bytes())?;
    }
    Ok(text)
}
