ghost use Rattle.std.specs.Prelude.{◌≡◌, ℕ, List, ◌++◌, ◌∷◌, codes, Some, Ok, IfOk, IfSome};
ghost use Rattle.memc_table.specs.Numeral.{number_of};
ghost use Rattle.hex.specs.Hex.{decode_of};
ghost use Rattle.carry_words.specs.Pages.{IsUntil, ListsItem, Says};

use crate::answering::behind;
use crate::listed::Listed;
use group_types::{Key, KeyFault};
use hex::FromHexError;
use memc_table::numeral::number;
use memchr::memchr;
use std::alloc::{AllocError, Global};

/// A line of a list of items.
#[derive(Debug, Drop)]
pub enum PageLine {
    /// An item.
    Item { item: Listed },
    /// More follow from this position on.
    More { from: u64 },
    /// There are no more.
    End,
    /// None of these.
    Other,
}

/// What a line says, without its end.
pub fn read_line(alloc: Global, line: &[u8]) -> Result<PageLine, AllocError>
    ensures { IfOk result (Says line.now) }
{
    match behind(line, b"item ") {
        Some(words) => Ok(match read_item(alloc, words)? {
            Some(item) => PageLine::Item { item },
            None => PageLine::Other,
        }),
        None => Ok(read_last(line)),
    }
}

/// A line that ends a page.
fn read_last(line: &[u8]) -> PageLine
    ensures { Says line.now result }
{
    if line == b"end".as_slice() {
        return PageLine::End;
    }
    match behind(line, b"more ") {
        Some(digits) => more(digits),
        None => PageLine::Other,
    }
}

/// Where the next page begins.
fn more(digits: &[u8]) -> PageLine
    ensures { (line : List ℕ) → line ≡ codes "more " ++ digits.now → Says line result }
{
    match number(digits) {
        Some(from) => PageLine::More { from },
        None => PageLine::Other,
    }
}

/// An item: its key in hexadecimal digits, its flags, its length, and its end.
fn read_item(alloc: Global, words: &[u8]) -> Result<Option<Listed>, AllocError>
    ensures { IfOk result (λ found. IfSome found (ListsItem words.now)) }
{
    let Some((digits, rest)) = split_word(words) else {
        return Ok(None);
    };
    let Some((flags, rest)) = split_word(rest) else {
        return Ok(None);
    };
    let Some((length, until)) = split_word(rest) else {
        return Ok(None);
    };
    match (small(flags), small(length), until_of(until)) {
        (Some(flags), Some(length), Some(until)) => listed(alloc, digits, flags, length, until),
        _ => Ok(None),
    }
}

/// The item of this key, where it is one.
fn listed(
    alloc: Global,
    digits: &[u8],
    flags: u32,
    length: u32,
    until: Option<u64>,
) -> Result<Option<Listed>, AllocError>
    ensures { IfOk result (λ found. IfSome found (λ item. (decode_of digits.now ≡ Ok item.key) × (item.flags ≡ flags)
        × (item.length ≡ length) × (item.until ≡ until))) }
{
    Ok(match read_key(alloc, digits)? {
        Some(key) => Some(Listed {
            key,
            flags,
            length,
            until,
        }),
        None => None,
    })
}

/// The key that hexadecimal digits say.
fn read_key(alloc: Global, digits: &[u8]) -> Result<Option<Key>, AllocError>
    ensures { IfOk result (λ found. IfSome found (λ key. decode_of digits.now ≡ Ok key)) }
{
    let bytes = match hex::decode(alloc, digits) {
        Ok(bytes) => bytes,
        Err(FromHexError::OutOfMemory) => return Err(AllocError),
        Err(_) => return Ok(None),
    };
    match Key::read(alloc, bytes.as_slice()) {
        Ok(key) => Ok(Some(key)),
        Err(KeyFault::BadKey) => Ok(None),
        Err(KeyFault::Want) => Err(AllocError),
    }
}

/// A number of 32 bits.
fn small(word: &[u8]) -> Option<u32>
    ensures { IfSome result (λ n. number_of word.now ≡ Some n) }
{
    match number(word) {
        Some(found) if found < 1 << 32 => Some(found as u32),
        _ => None,
    }
}

/// When an item ends, which is `-` where it doesn't.
fn until_of(word: &[u8]) -> Option<Option<u64>>
    ensures { IfSome result (IsUntil word.now) }
{
    if word == b"-".as_slice() {
        return Some(None);
    }
    match number(word) {
        Some(until) => Some(Some(until)),
        None => None,
    }
}

/// The bytes before the first space, and those behind it.
fn split_word(text: &[u8]) -> Option<(&[u8], &[u8])>
    ensures { IfSome result (λ p. text.now ≡ p.0.now ++ 32 ∷ p.1.now) }
{
    let end = memchr(b' ', text)?;
    Some((&text[..end], &text[end + 1..]))
}
