ghost use Rattle.std.specs.Prelude.{◌≡◌, IfOk};
ghost use Rattle.scenario_text.specs.Texts.{entry_text, name_text, moment_text};

use crate::act_text::write_act;
use crate::reply_text::{joined, write_reply};
use group_calls::Entry;
use std::alloc::{AllocError, Global};

/// The text of an entry of the log, without a line end.
pub fn write_entry(alloc: Global, entry: &Entry) -> Result<Vec<u8>, AllocError>
    ensures { IfOk result (λ text. text.items ≡ entry_text entry.now) }
{
    let mut text = write_name(alloc, entry.caller, entry.call, entry.op.now())?;
    text.extend_from_slice(&write_act(alloc, entry.op.act())?)?;
    text.extend_from_slice(b" ")?;
    joined(text, &write_reply(alloc, &entry.reply)?)
}

/// The head of the line: the name of a call, and the moment where it is not 0.
fn write_name(alloc: Global, caller: u32, call: u64, moment: u64) -> Result<Vec<u8>, AllocError>
    ensures { IfOk result (λ text. text.items ≡ name_text caller call moment) }
{
    let mut text = format!(in alloc; "= {caller}")?.into_bytes();
    text.extend_from_slice(format!(in alloc; ".{call}")?.as_bytes())?;
    text.extend_from_slice(&write_moment(alloc, moment)?)?;
    joined(text, b" ")
}

fn write_moment(alloc: Global, moment: u64) -> Result<Vec<u8>, AllocError>
    ensures { IfOk result (λ text. text.items ≡ moment_text moment) }
{
    if moment == 0 {
        return Ok(Vec::new(alloc));
    }
    Ok(format!(in alloc; " @{moment}")?.into_bytes())
}
