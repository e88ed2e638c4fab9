ghost use Rattle.std.specs.Prelude.{◌≡◌, ◌-◌, ◌++◌, length, IfOk, IfSome};
ghost use Rattle.carry_words.specs.Answers.{IsHeard, IsRest, head_text};
ghost use Rattle.carry_words.specs.declared.listed.Listed.{Listed};

use crate::heard::Heard;
use crate::listed::Listed;
use group_types::Payload;
use memchr::memchr;
use std::alloc::{AllocError, Global};

/// An answer, and how many bytes of the text it is.
#[derive(Debug, Drop)]
pub struct Found {
    /// What it says.
    pub heard: Heard,
    /// How many bytes it has.
    pub count: usize,
}

/// The answer to what was asked for an item, where a text begins with a whole one.
pub fn read_answer(alloc: Global, item: &Listed, text: &[u8]) -> Result<Option<Found>, AllocError>
    ensures { IfOk result (λ found. IfSome found (IsHeard item.now text.now)) }
{
    let head = head_of(alloc, item)?;
    match behind(text, head.as_slice()) {
        Some(rest) => {
            let found = read_value(alloc, item.length, rest)?;
            match found {
                Some((value, left)) => Ok(Some(answered(Heard::Found { value }, text, left))),
                None => Ok(None),
            }
        }
        None => Ok(read_short(text)),
    }
}

/// An answer with which a text begins, behind which this is left.
fn answered(heard: Heard, text: &[u8], left: &[u8]) -> Found
    ensures { result ≡ record { heard = heard; count = length text.now - length left.now } }
{
    Found {
        heard,
        count: text.len().saturating_sub(left.len()),
    }
}

/// How the answer begins that has an item with the flags and the length that were listed.
fn head_of(alloc: Global, item: &Listed) -> Result<Vec<u8>, AllocError>
    ensures { IfOk result (λ text. text.items ≡ head_text item.now) }
{
    let numbers = format!(in alloc; " {} {}\r\n", item.flags, item.length)?;
    let mut text = Vec::with_capacity(alloc, 320)?;
    text.extend_from_slice(b"VALUE ")?;
    text.extend_from_slice(item.key.bytes())?;
    text.extend_from_slice(numbers.as_bytes())?;
    Ok(text)
}

/// The value of so many bytes that stands behind a head, where all of it and what ends the answer is there, and what is left.
fn read_value<'a>(
    alloc: Global,
    length: u32,
    rest: &'a [u8],
) -> Result<Option<(Payload, &'a [u8])>, AllocError>
    ensures { IfOk result (λ found. IfSome found (λ p. IsRest length p.0 rest.now p.1.now)) }
{
    let length = length as usize;
    if rest.len() < length {
        return Ok(None);
    }
    let (value, more) = rest.split_at(length);
    match behind(more, b"\r\nEND\r\n") {
        Some(left) => Ok(Some((Payload::of(alloc, value)?, left))),
        None => Ok(None),
    }
}

/// An answer of one line.
fn read_short(text: &[u8]) -> Option<Found>
    ensures { (item : Listed) → IfSome result (IsHeard item text.now) }
{
    if let Some(missing) = behind(text, b"END\r\n") {
        return Some(answered(Heard::Missing, text, missing));
    }
    if let Some(stored) = behind(text, b"STORED\r\n") {
        return Some(answered(Heard::Stored, text, stored));
    }
    read_line(text)
}

/// A line that is no answer that was wanted.
fn read_line(text: &[u8]) -> Option<Found>
    ensures { (item : Listed) → IfSome result (IsHeard item text.now) }
{
    let end = memchr(b'\n', text)?;
    let (_, left) = text.split_at(end + 1);
    if behind(text, b"VALUE ").is_some() {
        Some(answered(Heard::Other, text, left))
    } else {
        Some(answered(Heard::Refused, text, left))
    }
}

/// What stands behind some bytes with which a text begins.
pub(crate) fn behind<'a>(text: &'a [u8], front: &[u8]) -> Option<&'a [u8]>
    ensures { IfSome result (λ rest. text.now ≡ front.now ++ rest.now) }
{
    text.strip_prefix(front)
}
