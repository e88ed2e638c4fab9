ghost use Rattle.std.specs.Prelude.{◌≡◌, Some};
ghost use Rattle.std.specs.Int.{w64};
ghost use Rattle.wire_codec.specs.Reading.{Gives, decode_process, session_at, rows_at, stamp_at, updates_at, update_at, many_at, decode_number};

use crate::fault::ReadFault;
use crate::numbers::{take, take_eight, take_one, take_two};
use crate::take_update::take_update;
use group_message::{RowList, Session, Update, UpdateList};
use group_types::ProcessId;
use std::alloc::Global;
use vector_stamp::Stamp;

/// A process.
#[tactic(auto, unfolding(crate::specs::Reading::decode_process))]
pub fn take_process(bytes: &[u8]) -> Result<(ProcessId, &[u8]), ReadFault>
    ensures { Gives (λ x. (x.0, x.1.now)) result (decode_process bytes.now) }
{
    let (tag, rest) = take_one(bytes)?;
    match tag {
        0 => {
            let (d, rest) = take_one(rest)?;
            Ok((ProcessId::DataNode(d), rest))
        }
        1 => {
            let (i, rest) = take_one(rest)?;
            Ok((ProcessId::ParityNode(i), rest))
        }
        _ => Err(ReadFault::NoSpelling),
    }
}

/// A session.
#[tactic(auto, unfolding(crate::specs::Reading::session_at))]
pub(crate) fn take_session(bytes: &[u8]) -> Result<(Session, &[u8]), ReadFault>
    ensures { Gives (λ x. (x.0, x.1.now)) result (session_at bytes.now) }
{
    let (leader, rest) = take_process(bytes)?;
    let (number, rest) = take_eight(rest)?;
    Ok((Session { leader, number }, rest))
}

/// Numbers of parity processes.
#[tactic(auto, unfolding(crate::specs::Reading::rows_at))]
pub(crate) fn take_rows(alloc: Global, bytes: &[u8]) -> Result<(RowList, &[u8]), ReadFault>
    ensures { Gives (λ x. (x.0, x.1.now)) result (rows_at bytes.now) }
{
    let (len, rest) = take_one(bytes)?;
    let (numbers, rest) = take(rest, len as usize)?;
    let rows = widened(alloc, numbers)?;
    Ok((RowList::from(rows), rest))
}

/// Each byte as a number.
fn widened(alloc: Global, bytes: &[u8]) -> Result<Vec<u32>, ReadFault>
    ensures { Gives (λ numbers. numbers.items) result (Some bytes.now) }
{
    let mut numbers = Vec::with_capacity(alloc, bytes.len())?;
    'bytes: for &byte in bytes {
        numbers.push(u32::from(byte))?;
    }
    Ok(numbers)
}

/// A stamp.
#[tactic(auto, unfolding(crate::specs::Reading::stamp_at))]
pub(crate) fn take_stamp(alloc: Global, bytes: &[u8]) -> Result<(Stamp, &[u8]), ReadFault>
    ensures { Gives (λ x. (x.0, x.1.now)) result (stamp_at bytes.now) }
{
    let (len, rest) = take_one(bytes)?;
    let (numbers, rest) = take_numbers(alloc, len, rest)?;
    Ok((Stamp::from(numbers), rest))
}

fn take_numbers(alloc: Global, count: u32, bytes: &[u8]) -> Result<(Vec<u64>, &[u8]), ReadFault>
    ensures { Gives (λ x. (x.0.items, x.1.now)) result (many_at (decode_number w64) count bytes.now) }
{
    let mut numbers = Vec::new(alloc);
    let mut rest = bytes;
    'numbers: for _ in 0..count {
        let (number, behind) = take_eight(rest)?;
        numbers.push(number)?;
        rest = behind;
    }
    Ok((numbers, rest))
}

/// Updates.
#[tactic(auto, unfolding(crate::specs::Reading::updates_at))]
pub(crate) fn take_updates(alloc: Global, bytes: &[u8]) -> Result<(UpdateList, &[u8]), ReadFault>
    ensures { Gives (λ x. (x.0, x.1.now)) result (updates_at bytes.now) }
{
    let (len, rest) = take_two(bytes)?;
    let (updates, rest) = take_all(alloc, len, rest)?;
    Ok((UpdateList::from(updates), rest))
}

fn take_all(alloc: Global, count: u16, bytes: &[u8]) -> Result<(Vec<Update>, &[u8]), ReadFault>
    ensures { Gives (λ x. (x.0.items, x.1.now)) result (many_at update_at count bytes.now) }
{
    let mut updates = Vec::new(alloc);
    let mut rest = bytes;
    'updates: for _ in 0..count {
        let (update, behind) = take_update(alloc, rest)?;
        updates.push(update)?;
        rest = behind;
    }
    Ok((updates, rest))
}
