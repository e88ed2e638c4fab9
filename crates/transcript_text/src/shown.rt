ghost use Rattle.std.specs.Prelude.{◌≡◌, IfSome, None, length};
ghost use Rattle.transcript_text.specs.Parts.{IsStamp};
ghost use Rattle.transcript_text.specs.Texts.{ShowsNone, ShowsValue};

use crate::number::{number, number_up_to};
use crate::word::{after, cut};

/// Reads the stamp that a line shows, of as many numbers as there is room for, and gives the word of the value.
pub fn shown<'a>(line: &'a [u8], stamp: &mut [u64]) -> Option<&'a [u8]>
    ensures some { IfSome result (λ value. ShowsValue line.now stamp.new value.now) }
    ensures none { result ≡ None → ShowsNone line.now (length stamp.old) }
    ensures long { length stamp.new ≡ length stamp.old }
{
    let (numbers, value) = cut(b' ', after(b"shown ", line)?)?;
    if read_stamp(numbers, stamp) {
        return Some(value);
    }
    None
}

/// Reads numbers with commas between them, as many as there is room for.
fn read_stamp(text: &[u8], stamp: &mut [u64]) -> bool
    ensures read { IsStamp text.now stamp.new result }
    ensures long { length stamp.new ≡ length stamp.old }
{
    if stamp.is_empty() {
        return text.is_empty();
    }
    let last = stamp.len() - 1;
    let mut rest = text;
    'numbers: for place in 0..last {
        match number_up_to(b',', rest) {
            Some((number, more)) => {
                stamp[place] = number;
                rest = more;
            }
            None => return false,
        }
    }
    match number(rest) {
        Some(number) => {
            stamp[last] = number;
            true
        }
        None => false,
    }
}
