ghost use Rattle.std.specs.Prelude.{◌≡◌, ◌++◌, IfOk};
ghost use Rattle.scenario_text.specs.Texts.{act_text, flagged_text, stored_text};

use crate::reply_text::{joined, write_value};
use group_types::{Key, Payload};
use memc_table::Act;
use std::alloc::{AllocError, Global};

/// An op in script form.
pub fn write_act(alloc: Global, act: &Act) -> Result<Vec<u8>, AllocError>
    ensures { IfOk result (λ text. text.items ≡ act_text act.now) }
{
    match act {
        Act::Get { key } => write_named(alloc, b"get ", key),
        Act::Set {
            key,
            flags,
            expiry,
            value,
        } => {
            let front = write_flagged(alloc, b"set ", key, *flags)?;
            write_stored(alloc, front, *expiry, value)
        }
        Act::Add {
            key,
            flags,
            expiry,
            value,
        } => {
            let front = write_flagged(alloc, b"add ", key, *flags)?;
            write_stored(alloc, front, *expiry, value)
        }
        Act::Replace {
            key,
            flags,
            expiry,
            value,
        } => {
            let front = write_flagged(alloc, b"replace ", key, *flags)?;
            write_stored(alloc, front, *expiry, value)
        }
        Act::Cas {
            key,
            flags,
            expiry,
            cas,
            value,
        } => {
            let front = write_flagged(alloc, b"cas ", key, *flags)?;
            let front = joined(front, format!(in alloc; " {cas}")?.as_bytes())?;
            write_stored(alloc, front, *expiry, value)
        }
        Act::Delete { key } => write_named(alloc, b"delete ", key),
        Act::Touch { key, expiry } => joined(
            write_named(alloc, b"touch ", key)?,
            format!(in alloc; " {expiry}")?.as_bytes(),
        ),
        Act::Append { key, value } => {
            let front = write_named(alloc, b"append ", key)?;
            write_stored(alloc, front, 0, value)
        }
        Act::Prepend { key, value } => {
            let front = write_named(alloc, b"prepend ", key)?;
            write_stored(alloc, front, 0, value)
        }
        Act::Incr { key, by } => joined(
            write_named(alloc, b"incr ", key)?,
            format!(in alloc; " {by}")?.as_bytes(),
        ),
        Act::Decr { key, by } => joined(
            write_named(alloc, b"decr ", key)?,
            format!(in alloc; " {by}")?.as_bytes(),
        ),
    }
}

/// An op's name, with the space behind it, and its key.
fn write_named(alloc: Global, name: &[u8], key: &Key) -> Result<Vec<u8>, AllocError>
    ensures { IfOk result (λ text. text.items ≡ name.now ++ key.now) }
{
    joined(Vec::from_slice(alloc, name)?, key.bytes())
}

/// An op's name, its key and its flags.
fn write_flagged(alloc: Global, name: &[u8], key: &Key, flags: u32) -> Result<Vec<u8>, AllocError>
    ensures { IfOk result (λ text. text.items ≡ flagged_text name.now key.now flags) }
{
    let front = write_named(alloc, name, key)?;
    joined(front, format!(in alloc; " {flags}")?.as_bytes())
}

/// The text, then a value, and an exptime that is not 0.
fn write_stored(
    alloc: Global,
    front: Vec<u8>,
    expiry: i64,
    value: &Payload,
) -> Result<Vec<u8>, AllocError>
    ensures { IfOk result (λ text. text.items ≡ stored_text front.items expiry value.now) }
{
    let mut text = joined(front, b" ")?;
    text.extend_from_slice(&write_value(alloc, value.bytes())?)?;
    if expiry != 0 {
        text.extend_from_slice(format!(in alloc; " {expiry}")?.as_bytes())?;
    }
    Ok(text)
}
