ghost use Rattle.std.specs.Prelude.{◌<◌, ◌==◌, All, IfOk};
ghost use Rattle.std.specs.List.{slice_split};
ghost use Rattle.scenario_text.specs.Reads.{IsReadAs, IsReadBy};
ghost use Rattle.scenario_text.specs.Words.{value_of_word, hex_value, if_short, repeated, repeated_bytes};

use crate::line::LineFault;
use crate::read_word::read_number;
use crate::split::split;
use group_types::Payload;
use hex::FromHexError;
use memc_table::rule::LONGEST_VALUE;
use std::alloc::Global;

/// Reads a value: `-`, `*<len>*<digits of a byte>`, or the hexadecimal digits of its bytes in either
/// case.
pub fn read_value(alloc: Global, word: &[u8]) -> Result<Payload, LineFault>
    ensures value { IsReadAs result (value_of_word word.now) }
    ensures bytes { IfOk result (λ value. All (λ b. b < 256) value) }
{
    let bytes = read_bytes(alloc, word)?;
    are_bytes(&bytes);
    Ok(Payload::from_vec(bytes)?)
}

#[tactic(auto, unfolding(crate::specs::Words::value_of_word))]
fn read_bytes(alloc: Global, word: &[u8]) -> Result<Vec<u8>, LineFault>
    ensures { IsReadBy (λ bytes. bytes.items) result (value_of_word word.now) }
{
    match word {
        [] => Err(LineFault::BadLine),
        _ if word == b"-".as_slice() => Ok(Vec::new(alloc)),
        [b'*', parts @ ..] => read_repeated(alloc, parts),
        _ => read_short(alloc, word),
    }
}

/// Reads a length and the digits of a byte, with a `*` between them.
fn read_repeated(alloc: Global, parts: &[u8]) -> Result<Vec<u8>, LineFault>
    ensures { IsReadBy (λ bytes. bytes.items) result (repeated (slice_split (λ b. b == 42) parts.now)) }
{
    match split(alloc, b'*', parts)?.as_slice() {
        [len, digits] => {
            let len = read_number(len, LONGEST_VALUE as u64 + 1)? as usize;
            repeat(alloc, len, &read_hex(alloc, digits)?)
        }
        _ => Err(LineFault::BadLine),
    }
}

fn repeat(alloc: Global, len: usize, byte: &[u8]) -> Result<Vec<u8>, LineFault>
    ensures { IsReadBy (λ bytes. bytes.items) result (repeated_bytes len byte.now) }
{
    match byte {
        [byte] if 0 < len => Ok(vec![in alloc; *byte; len]?),
        _ => Err(LineFault::BadLine),
    }
}

/// Reads hexadecimal digits of at most the longest value.
fn read_short(alloc: Global, word: &[u8]) -> Result<Vec<u8>, LineFault>
    ensures { IsReadBy (λ bytes. bytes.items) result (if_short (hex_value word.now)) }
{
    let bytes = read_hex(alloc, word)?;
    if LONGEST_VALUE < bytes.len() {
        return Err(LineFault::BadLine);
    }
    Ok(bytes)
}

fn read_hex(alloc: Global, word: &[u8]) -> Result<Vec<u8>, LineFault>
    ensures { IsReadBy (λ bytes. bytes.items) result (hex_value word.now) }
{
    match hex::decode(alloc, word) {
        Ok(bytes) => Ok(bytes),
        Err(FromHexError::OutOfMemory) => Err(LineFault::Want),
        Err(_) => Err(LineFault::BadLine),
    }
}

fn are_bytes(bytes: &[u8])
    ensures { All (λ b. b < 256) bytes.now }
{
    let _long = bytes.len();
}
