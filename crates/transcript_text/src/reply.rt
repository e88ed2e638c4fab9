ghost use Rattle.std.specs.Prelude.{◌↔◌, IsTrue};
ghost use Rattle.transcript_text.specs.Parts.{IsItemFront, IsItemReply, IsNumberReply, IsWordReply};
ghost use Rattle.transcript_text.specs.Texts.{IsReplyText};

use crate::number::{number, number_below_up_to, number_up_to};
use crate::value::is_value;
use crate::word::{after, is_text};

/// Whether a text is that of a reply.
pub fn is_reply(text: &[u8]) -> bool
    ensures { IsTrue result ↔ IsReplyText text.now }
{
    if is_word_reply(text) {
        return true;
    }
    if is_number_reply(text) {
        return true;
    }
    is_item_reply(text)
}

fn is_word_reply(text: &[u8]) -> bool
    ensures { IsTrue result ↔ IsWordReply text.now }
{
    if is_text(text, b"miss") {
        return true;
    }
    if is_text(text, b"stored") {
        return true;
    }
    if is_text(text, b"not_stored") {
        return true;
    }
    if is_text(text, b"exists") {
        return true;
    }
    if is_text(text, b"not_found") {
        return true;
    }
    if is_text(text, b"deleted") {
        return true;
    }
    if is_text(text, b"touched") {
        return true;
    }
    if is_text(text, b"not_number") {
        return true;
    }
    if is_text(text, b"too_large") {
        return true;
    }
    false
}

fn is_number_reply(text: &[u8]) -> bool
    ensures { IsTrue result ↔ IsNumberReply text.now }
{
    match after(b"number ", text) {
        Some(word) => number(word).is_some(),
        None => false,
    }
}

fn is_item_reply(text: &[u8]) -> bool
    ensures { IsTrue result ↔ IsItemReply text.now }
{
    match item_value(text) {
        Some(value) => is_value(value),
        None => false,
    }
}

/// The word of an item's value, behind its flags and its cas number.
fn item_value(text: &[u8]) -> Option<&[u8]>
    ensures { IsItemFront text.now result }
{
    let numbers = after(b"value ", text)?;
    let (_, numbers) = number_below_up_to(b' ', numbers, 1 << 32)?;
    let (_, value) = number_up_to(b' ', numbers)?;
    Some(value)
}
