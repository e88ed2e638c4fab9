ghost use Rattle.std.specs.Prelude.{◌≡◌, ◌++◌, codes, OnOk, IfOk};
ghost use Rattle.std.specs.String.{string_bytes};
ghost use Rattle.carry_words.specs.Texts.{exptime_text, get_request, numbers_text, set_text, transfer_text};

use crate::listed::Listed;
use crate::stage::Stage;
use crate::transfer::Transfer;
use group_types::Payload;
use std::alloc::{AllocError, Global};

/// The most seconds of an exptime that are counted from the call.
const LONGEST_OFFSET: u64 = 2_592_000;

/// What is asked next for an item.
pub fn request_of(alloc: Global, transfer: &Transfer) -> Result<Vec<u8>, AllocError>
    ensures { IfOk result (λ text. text.items ≡ transfer_text transfer.now) }
{
    match &transfer.stage {
        Stage::Unread | Stage::Stored { .. } => get(alloc, &transfer.item),
        Stage::Read { value } => set(alloc, &transfer.item, value),
    }
}

/// The request that gets an item.
fn get(alloc: Global, item: &Listed) -> Result<Vec<u8>, AllocError>
    ensures { IfOk result (λ text. text.items ≡ get_request item.now) }
{
    let mut text = Vec::with_capacity(alloc, 256)?;
    text.extend_from_slice(b"get ")?;
    text.extend_from_slice(item.key.bytes())?;
    text.extend_from_slice(b"\r\n")?;
    Ok(text)
}

/// The request that sets an item to a value, so that it lives as long.
fn set(alloc: Global, item: &Listed, value: &Payload) -> Result<Vec<u8>, AllocError>
    ensures { IfOk result (λ text. text.items ≡ set_text item.now value.now) }
{
    let exptime = exptime(alloc, item.until)?;
    let numbers = numbers(alloc, item.flags, exptime.as_str(), value.len())?;
    let mut text = Vec::with_capacity(alloc, value.len().saturating_add(320))?;
    put_set(&mut text, item, numbers.as_str(), value)?;
    Ok(text)
}

/// Puts a set behind a text.
fn put_set(
    text: &mut Vec<u8>,
    item: &Listed,
    numbers: &str,
    value: &Payload,
) -> Result<(), AllocError>
    ensures { OnOk result (text.new.items
        ≡ text.old.items ++ (codes "set " ++ item.now.key ++ numbers.now ++ value.now ++ codes "\r\n")) }
{
    text.extend_from_slice(b"set ")?;
    text.extend_from_slice(item.key.bytes())?;
    text.extend_from_slice(numbers.as_bytes())?;
    text.extend_from_slice(value.bytes())?;
    text.extend_from_slice(b"\r\n")
}

/// What stands behind the key in the line of a set.
fn numbers(alloc: Global, flags: u32, exptime: &str, length: usize) -> Result<String, AllocError>
    ensures { IfOk result (λ text. string_bytes text ≡ numbers_text flags exptime.now length) }
{
    format!(in alloc; " {flags} {exptime} {length}\r\n")
}

/// The exptime with which an item has this end: a number up to 30 days would be counted from the call, but an item with such an
/// end has ended.
fn exptime(alloc: Global, until: Option<u64>) -> Result<String, AllocError>
    ensures { IfOk result (λ text. string_bytes text ≡ exptime_text until) }
{
    match until {
        None => format!(in alloc; "0"),
        Some(until) if until <= LONGEST_OFFSET => format!(in alloc; "-1"),
        Some(until) => format!(in alloc; "{until}"),
    }
}
