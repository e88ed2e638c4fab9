ghost use Rattle.std.specs.Prelude.{◌≡◌, ◌++◌, map, length, nat_lt, [], ◌∷◌, IfOk, OnOk, if◌then◌else◌};
ghost use Rattle.memc_proto.specs.Words.{words_of, without_return};

use memchr::memchr;
use std::alloc::{AllocError, Global};

/// The line without one carriage return at its end.
pub(crate) fn without_return(line: &[u8]) -> &[u8]
    ensures { result.now ≡ without_return line.now }
{
    match line {
        [front @ .., b'\r'] => front,
        _ => line,
    }
}

/// The words of a line: the longest runs of bytes other than the space.
pub(crate) fn words(alloc: Global, line: &[u8]) -> Result<Vec<&[u8]>, AllocError>
    ensures { IfOk result (λ words. map (λ word. word.now) words.items ≡ words_of line.now) }
{
    let mut words = Vec::with_capacity(alloc, 8)?;
    let mut rest = line;
    'words: while let Some(end) = memchr(b' ', rest) {
        push_word(&mut words, &rest[..end])?;
        rest = &rest[end + 1..];
    }
    push_word(&mut words, rest)?;
    Ok(words)
}

fn push_word<'a>(words: &mut Vec<&'a [u8]>, word: &'a [u8]) -> Result<(), AllocError>
    ensures { OnOk result (map (λ word. word.now) words.new.items ≡ map (λ word. word.now) words.old.items ++ (if nat_lt 0 (length word.now) then word.now ∷ [] else [])) }
{
    if !word.is_empty() {
        words.push(word)?;
    }
    Ok(())
}
