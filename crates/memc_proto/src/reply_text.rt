ghost use Rattle.std.specs.Prelude.{◌≡◌, ◌++◌, ℕ, Bool, List, [], length, IfNone, IfOk, IfSome};
ghost use Rattle.std.specs.String.{string_bytes};
ghost use Rattle.memc_proto.specs.declared.end.CallEnd.TheVariants as call;
ghost use Rattle.memc_proto.specs.Text.{HasOwnText, end_text, reply_text, item_text, fail_text, refusal_text, version_text, end_of_items, too_long_text, cas_text, next_number, line};

use crate::end::{CallEnd, FailEnd};
use crate::request::Refusal;
use group_types::{ByteList, Key};
use memc_table::{Item, Reply};
use std::alloc::{AllocError, Global};

/// The text of the end of a call, which is the same for every key: of each end but one that hands out an item
/// or a number. It takes no memory.
pub fn plain_text(end: &CallEnd) -> Option<&'static [u8]>
    ensures text { IfSome result (λ text. (key : List ℕ) (with_cas : Bool) → end_text key with_cas end.now ≡ text.now) }
    ensures none { IfNone result (HasOwnText end.now) }
{
    match end {
        CallEnd::Reply(reply) => plain_reply(reply),
        CallEnd::NoSpace => Some(b"SERVER_ERROR out of memory storing object\r\n"),
        CallEnd::Down => Some(b"SERVER_ERROR group down\r\n"),
        CallEnd::Worn => Some(b"SERVER_ERROR group worn\r\n"),
        CallEnd::Moves => Some(b"SERVER_ERROR group moves\r\n"),
    }
}

fn plain_reply(reply: &Reply) -> Option<&'static [u8]>
    ensures text { IfSome result (λ text. (key : List ℕ) (with_cas : Bool) → reply_text key with_cas reply.now ≡ text.now) }
    ensures none { IfNone result (HasOwnText (call.Reply reply.now)) }
{
    match reply {
        Reply::Value(_) | Reply::Number(_) => None,
        Reply::Miss => Some(b""),
        Reply::Stored => Some(b"STORED\r\n"),
        Reply::NotStored => Some(b"NOT_STORED\r\n"),
        Reply::Exists => Some(b"EXISTS\r\n"),
        Reply::NotFound => Some(b"NOT_FOUND\r\n"),
        Reply::Deleted => Some(b"DELETED\r\n"),
        Reply::Touched => Some(b"TOUCHED\r\n"),
        Reply::NotNumber => {
            Some(b"CLIENT_ERROR cannot increment or decrement non-numeric value\r\n")
        }
        Reply::TooLarge => Some(b"SERVER_ERROR object too large for cache\r\n"),
    }
}

/// The text of the end of one call on a key, without the `END` of a get.
pub fn write_reply(
    alloc: Global,
    key: &Key,
    with_cas: bool,
    end: &CallEnd,
) -> Result<ByteList, AllocError>
    ensures { IfOk result (λ text. text ≡ end_text key.now with_cas end.now) }
{
    if let Some(text) = plain_text(end) {
        return ByteList::of(alloc, text);
    }
    match end {
        CallEnd::Reply(Reply::Value(item)) => item_bytes(alloc, key, with_cas, item),
        CallEnd::Reply(Reply::Number(number)) => {
            let text = format!(in alloc; "{number}\r\n")?;
            Ok(ByteList::from(text.into_bytes()))
        }
        _ => unreachable!(),
    }
}

/// An item that was found: its line, and its value with a line end.
fn item_bytes(alloc: Global, key: &Key, with_cas: bool, item: &Item) -> Result<ByteList, AllocError>
    ensures { IfOk result (λ text. text ≡ item_text key.now with_cas item.now) }
{
    let line = line_behind_key(alloc, with_cas, item)?;
    let mut text = Vec::with_capacity(alloc, item.value.len().saturating_add(320))?;
    text.extend_from_slice(b"VALUE ")?;
    text.extend_from_slice(key.bytes())?;
    text.extend_from_slice(line.as_bytes())?;
    text.extend_from_slice(item.value.bytes())?;
    text.extend_from_slice(b"\r\n")?;
    Ok(ByteList::from(text))
}

/// What stands behind the key in the line of an item that was found, with the line's end.
fn line_behind_key(alloc: Global, with_cas: bool, item: &Item) -> Result<String, AllocError>
    ensures { IfOk result (λ text. string_bytes text
        ≡ next_number item.now.flags ++ (next_number (length item.now.value) ++ (cas_text with_cas item.now.cas ++ line []))) }
{
    let cas = cas_word(alloc, with_cas, item.cas)?;
    format!(in alloc; " {} {}{}\r\n", item.flags, item.value.len(), cas)
}

/// The cas number behind a space, where it is asked.
fn cas_word(alloc: Global, with_cas: bool, cas: u64) -> Result<String, AllocError>
    ensures { IfOk result (λ text. string_bytes text ≡ cas_text with_cas cas) }
{
    if !with_cas {
        return Ok(String::new(alloc));
    }
    format!(in alloc; " {cas}")
}

/// The text of the end of an order that a process fail.
pub fn fail_text(end: FailEnd) -> &'static [u8]
    ensures { result.now ≡ fail_text end }
{
    match end {
        FailEnd::Made => b"OK\r\n",
        FailEnd::AlreadyDead => b"ALREADY_DEAD\r\n",
        FailEnd::NoProcess => b"CLIENT_ERROR no such process\r\n",
        FailEnd::Off => b"ERROR\r\n",
        FailEnd::Worn => b"SERVER_ERROR group worn\r\n",
    }
}

/// The text of a refusal.
pub fn refusal_text(refusal: Refusal) -> &'static [u8]
    ensures { result.now ≡ refusal_text refusal }
{
    match refusal {
        Refusal::Unknown => b"ERROR\r\n",
        Refusal::BadLine { .. } => b"CLIENT_ERROR bad command line format\r\n",
        Refusal::TooLarge { .. } => b"SERVER_ERROR object too large for cache\r\n",
        Refusal::BadChunk => b"CLIENT_ERROR bad data chunk\r\n",
    }
}

/// The answer to `version`.
pub fn version_text() -> &'static [u8]
    ensures { result.now ≡ version_text }
{
    b"VERSION cocytus-1\r\n"
}

/// What follows the items of a get.
pub fn end_of_items() -> &'static [u8]
    ensures { result.now ≡ end_of_items }
{
    b"END\r\n"
}

/// What is written of a line that is too long, which ends the connection.
pub fn too_long_text() -> &'static [u8]
    ensures { result.now ≡ too_long_text }
{
    b"CLIENT_ERROR line too long\r\n"
}
