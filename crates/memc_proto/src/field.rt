ghost use Rattle.std.specs.Prelude.{◌≡◌, ◌^◌, map};
ghost use Rattle.memc_proto.specs.Words.{GivesWord, if_below, key_word, number_word, exptime_word, last_word, process_word, keep_word, signed_of};
ghost use Rattle.memc_table.specs.Numeral.{number_of};

use crate::request::Word;
use group_types::{Key, KeyFault, ProcessId};
use memc_table::numeral::number;
use std::alloc::{AllocError, AllocFailed, Global};

/// Why a word was not read: it is not what stands at its place, or there was no memory.
#[derive(Clone, Copy)]
pub enum Fault {
    Wrong(Word),
    Want,
}

impl From<AllocError> for Fault {
    ghost use Rattle.std.specs.Prelude.{◌≡◌};
    ghost use Rattle.memc_proto.specs.declared.field.Fault.TheVariants.{Want};

    ghost from_gives = { λ _ fault. fault ≡ Want };

    fn from(_: AllocError) -> Fault {
        Fault::Want
    }
}

impl<T: Drop> From<AllocFailed<T>> for Fault {
    ghost use Rattle.std.specs.Prelude.{◌≡◌};
    ghost use Rattle.memc_proto.specs.declared.field.Fault.TheVariants.{Want};

    ghost from_gives = { λ _ fault. fault ≡ Want };

    fn from(_: AllocFailed<T>) -> Fault {
        Fault::Want
    }
}

/// Reads a key.
#[tactic(auto, unfolding(crate::specs::Words::key_word))]
pub(crate) fn read_key(alloc: Global, word: &[u8]) -> Result<Key, Fault>
    ensures { GivesWord result (key_word word.now) }
{
    match Key::read(alloc, word) {
        Ok(key) => Ok(key),
        Err(KeyFault::BadKey) => Err(Fault::Wrong(Word::Key)),
        Err(KeyFault::Want) => Err(Fault::Want),
    }
}

/// Reads a number word of 32 bits.
#[tactic(auto, unfolding(crate::specs::Words::number_word))]
pub(crate) fn read_u32(which: Word, word: &[u8]) -> Result<u32, Fault>
    ensures { GivesWord result (number_word which (2 ^ 32) word.now) }
{
    match u32_of(word) {
        Some(number) => Ok(number),
        None => Err(Fault::Wrong(which)),
    }
}

/// The number of a number word, if it has 32 bits.
pub(crate) fn u32_of(word: &[u8]) -> Option<u32>
    ensures { result ≡ if_below (2 ^ 32) (number_of word.now) }
{
    match number(word) {
        Some(number) if number < 1 << 32 => Some(number as u32),
        _ => None,
    }
}

/// Reads a number word of 64 bits.
#[tactic(auto, unfolding(crate::specs::Words::number_word))]
pub(crate) fn read_u64(which: Word, word: &[u8]) -> Result<u64, Fault>
    ensures { GivesWord result (number_word which (2 ^ 64) word.now) }
{
    match number(word) {
        Some(number) => Ok(number),
        None => Err(Fault::Wrong(which)),
    }
}

/// Reads an exptime: a number word with an optional minus sign.
#[tactic(auto, unfolding(crate::specs::Words::exptime_word))]
pub(crate) fn read_exptime(word: &[u8]) -> Result<i64, Fault>
    ensures { GivesWord result (exptime_word word.now) }
{
    match signed(word) {
        Some(expiry) => Ok(expiry),
        None => Err(Fault::Wrong(Word::Exptime)),
    }
}

/// Reads the last word of a line, if there is one: whether the answer is not to be written.
#[tactic(auto, unfolding(crate::specs::Words::last_word))]
pub(crate) fn read_last(words: &[&[u8]]) -> Result<bool, Fault>
    ensures { GivesWord result (last_word (map (λ word. word.now) words.now)) }
{
    match words {
        [] => Ok(false),
        [word, ..] if *word == b"noreply".as_slice() => Ok(true),
        _ => Err(Fault::Wrong(Word::Last)),
    }
}

/// Reads a process, whether or not a group has it.
#[tactic(auto, unfolding(crate::specs::Words::process_word))]
pub(crate) fn read_process(word: &[u8]) -> Result<ProcessId, Fault>
    ensures { GivesWord result (process_word word.now) }
{
    match word {
        [b'd', digits @ ..] => Ok(ProcessId::DataNode(read_u32(Word::Process, digits)?)),
        [b'p', digits @ ..] => Ok(ProcessId::ParityNode(read_u32(Word::Process, digits)?)),
        _ => Err(Fault::Wrong(Word::Process)),
    }
}

/// Reads how many messages each link keeps.
#[tactic(auto, unfolding(crate::specs::Words::keep_word))]
pub fn read_keep(word: &[u8]) -> Result<u32, Fault>
    ensures { GivesWord result (keep_word word.now) }
{
    if word == b"all".as_slice() {
        return Ok(u32::MAX);
    }
    read_u32(Word::Keep, word)
}

/// The number of 64 bits with an optional minus sign, if the word is one.
pub fn signed(word: &[u8]) -> Option<i64>
    ensures { result ≡ signed_of word.now }
{
    match word {
        [b'-', digits @ ..] => 0i64.checked_sub_unsigned(number(digits)?),
        _ => 0i64.checked_add_unsigned(number(word)?),
    }
}
