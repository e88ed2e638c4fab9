ghost use Rattle.std.specs.Prelude.{◌≡◌, ◌↔◌, ◌<◌, ◌∷◌, [], IsTrue, All, codes, slice_index};
ghost use Rattle.hex.specs.Hex.{encode_lower, lower_digits};
ghost use Rattle.scenario_text.specs.Texts.{value_text};
ghost use Rattle.transcript_text.specs.Parts.{IsLowerDigit};
ghost use Rattle.transcript_text.specs.Reading.{IsBehind};
ghost use Rattle.transcript_text.specs.Texts.{IsValueText};

use crate::word::{after, is_text};

/// Whether a word is a value as it is printed: `-`, or two lower-case hexadecimal digits for each byte.
pub fn is_value(word: &[u8]) -> bool
    ensures { IsTrue result ↔ IsValueText word.now }
{
    if is_dash(word) {
        return true;
    }
    if word.is_empty() {
        return false;
    }
    if word.len() % 2 != 0 {
        return false;
    }
    are_digits(word)
}

/// Whether a word is the text of these bytes.
pub fn is_value_of(word: &[u8], bytes: &[u8]) -> bool
    ensures { IsTrue result ↔ (value_text bytes.now ≡ word.now) }
{
    if bytes.is_empty() {
        return is_dash(word);
    }
    are_digits_of(word, bytes)
}

fn is_dash(word: &[u8]) -> bool
    ensures { IsTrue result ↔ (word.now ≡ codes "-") }
{
    is_text(word, b"-")
}

fn are_digits(word: &[u8]) -> bool
    ensures { IsTrue result ↔ All IsLowerDigit word.now }
{
    'digits: for &digit in word {
        if !is_digit(digit) {
            return false;
        }
    }
    true
}

fn is_digit(digit: u8) -> bool
    ensures { IsTrue result ↔ IsLowerDigit digit }
{
    matches!(digit, b'0'..=b'9' | b'a'..=b'f')
}

/// Whether a word has two digits for each byte.
fn are_digits_of(word: &[u8], bytes: &[u8]) -> bool
    ensures { IsTrue result ↔ (encode_lower bytes.now ≡ word.now) }
{
    let mut rest = word;
    'bytes: for &byte in bytes {
        match behind_byte(rest, byte) {
            Some(more) => rest = more,
            None => return false,
        }
    }
    rest.is_empty()
}

/// What is behind the two digits of a byte.
fn behind_byte(word: &[u8], byte: u8) -> Option<&[u8]>
    ensures { IsBehind (encode_lower (byte ∷ [])) word.now result }
{
    after(&[digit(byte / 16), digit(byte % 16)], word)
}

fn digit(number: u8) -> u8
    requires { number < 16 }
    ensures { result ≡ slice_index lower_digits number }
{
    if number < 10 {
        return b'0' + number;
    }
    b'a' + (number - 10)
}
