ghost use Rattle.std.specs.Prelude.{◌≡◌, ◌↔◌, ◌++◌, ◌∷◌, ◌<◌, ◌^◌, [], length, slice_index, IsTrue};
ghost use Rattle.std.specs.Fmt.{decimal};
ghost use Rattle.transcript_text.specs.Reading.{ReadsAs, ReadsFront};
ghost use Rattle.transcript_text.specs.Texts.{FitsNumber};

use crate::word::cut;
use memc_table::numeral;

/// The number that a word is as it is printed, with no leading zero.
pub fn number(word: &[u8]) -> Option<u64>
    ensures { ReadsAs FitsNumber decimal word.now result }
{
    if has_leading_zero(word) {
        return None;
    }
    numeral::number(word)
}

/// The same of a number below `limit`.
pub fn number_below(word: &[u8], limit: u64) -> Option<u64>
    ensures { ReadsAs (λ n. n < limit) decimal word.now result }
{
    let number = number(word)?;
    if limit <= number {
        return None;
    }
    Some(number)
}

/// The number that a line begins with, up to the first such byte, and what is behind that.
pub(crate) fn number_up_to(byte: u8, line: &[u8]) -> Option<(u64, &[u8])>
    requires { byte < 48 }
    ensures { ReadsFront FitsNumber (λ n. decimal n ++ byte ∷ []) line.now result }
{
    let (word, rest) = cut(byte, line)?;
    Some((number(word)?, rest))
}

/// The same of a number below `limit`.
pub(crate) fn number_below_up_to(byte: u8, line: &[u8], limit: u64) -> Option<(u64, &[u8])>
    requires { byte < 48 }
    ensures { ReadsFront (λ n. n < limit) (λ n. decimal n ++ byte ∷ []) line.now result }
{
    let (word, rest) = cut(byte, line)?;
    Some((number_below(word, limit)?, rest))
}

fn has_leading_zero(word: &[u8]) -> bool
    ensures { IsTrue result ↔ ((1 < length word.now) × (slice_index word.now 0 ≡ 48)) }
{
    1 < word.len() && word[0] == b'0'
}
