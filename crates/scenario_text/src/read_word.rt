ghost use Rattle.std.specs.Prelude.{◌^◌, ◌<◌, IfOk};
ghost use Rattle.group_types.specs.Names.{IsProcess};
ghost use Rattle.memc_proto.specs.Words.{signed_of};
ghost use Rattle.memc_table.specs.Numeral.{number_of};
ghost use Rattle.scenario_text.specs.Reads.{IsReadAs};
ghost use Rattle.scenario_text.specs.Words.{number_below, key_of_word, process_of_word, keep_of_word};

use crate::line::LineFault;
use group_types::{Key, KeyFault, ProcessId, Shape};
use memc_proto::field;
use memc_proto::field::Fault;
use memc_table::numeral::number;
use std::alloc::Global;

/// Reads a number word that is below `limit`: 1 to 20 decimal digits.
#[tactic(auto, unfolding(crate::specs::Words::number_below))]
pub fn read_number(word: &[u8], limit: u64) -> Result<u64, LineFault>
    ensures value { IsReadAs result (number_below limit word.now) }
    ensures below { IfOk result (λ number. number < limit) }
{
    match number(word) {
        Some(number) if number < limit => Ok(number),
        _ => Err(LineFault::BadLine),
    }
}

/// Reads a number word of 32 bits.
pub fn read_u32(word: &[u8]) -> Result<u32, LineFault>
    ensures { IsReadAs result (number_below (2 ^ 32) word.now) }
{
    Ok(read_number(word, 1 << 32)? as u32)
}

/// Reads a number word of 64 bits.
pub fn read_u64(word: &[u8]) -> Result<u64, LineFault>
    ensures { IsReadAs result (number_of word.now) }
{
    match number(word) {
        Some(number) => Ok(number),
        None => Err(LineFault::BadLine),
    }
}

/// Reads an exptime: a number of 64 bits with an optional minus sign.
pub fn read_exptime(word: &[u8]) -> Result<i64, LineFault>
    ensures { IsReadAs result (signed_of word.now) }
{
    match field::signed(word) {
        Some(expiry) => Ok(expiry),
        None => Err(LineFault::BadLine),
    }
}

/// Reads how many messages each link keeps.
pub fn read_keep(word: &[u8]) -> Result<u32, LineFault>
    ensures { IsReadAs result (keep_of_word word.now) }
{
    match field::read_keep(word) {
        Ok(keep) => Ok(keep),
        Err(Fault::Wrong(_)) => Err(LineFault::BadLine),
        Err(Fault::Want) => Err(LineFault::Want),
    }
}

/// Reads a process of the group, as `d0` or `p0`.
#[tactic(auto, unfolding(crate::specs::Words::process_of_word))]
pub fn read_process(shape: Shape, word: &[u8]) -> Result<ProcessId, LineFault>
    ensures value { IsReadAs result (process_of_word shape word.now) }
    ensures within { IfOk result (IsProcess shape) }
{
    match word {
        [b'd', digits @ ..] => {
            let process = read_number(digits, u64::from(shape.k()))?;
            Ok(ProcessId::DataNode(process as u32))
        }
        [b'p', digits @ ..] => {
            let process = read_number(digits, u64::from(shape.m()))?;
            Ok(ProcessId::ParityNode(process as u32))
        }
        _ => Err(LineFault::BadLine),
    }
}

/// Reads a key.
#[tactic(auto, unfolding(crate::specs::Words::key_of_word))]
pub fn read_key(alloc: Global, word: &[u8]) -> Result<Key, LineFault>
    ensures { IsReadAs result (key_of_word word.now) }
{
    match Key::read(alloc, word) {
        Ok(key) => Ok(key),
        Err(KeyFault::BadKey) => Err(LineFault::BadLine),
        Err(KeyFault::Want) => Err(LineFault::Want),
    }
}
