ghost use Rattle.std.specs.Prelude.{◌≡◌};
ghost use Rattle.wire_codec.specs.Reading.{Gives};
ghost use Rattle.link_frames.specs.Texts.{told_answer_at, cause_at, flag_at, reply_at, value_reply_at, telling_at};

use crate::take_value::take_value;
use crate::told::Told;
use group_calls::{Answer, Cause};
use group_types::Partition;
use memc_table::{Item, Reply};
use std::alloc::Global;
use wire_codec::fields::{ReadFault, take_eight, take_four, take_one};

/// What is told, behind its kind.
#[tactic(auto, unfolding(crate::specs::Texts::telling_at))]
pub(crate) fn take_told(alloc: Global, bytes: &[u8]) -> Result<(Told, &[u8]), ReadFault>
    ensures { Gives (λ x. (x.0, x.1.now)) result (telling_at bytes.now) }
{
    let (caller, rest) = take_one(bytes)?;
    let (call, rest) = take_eight(rest)?;
    let (traced, rest) = take_flag(rest)?;
    let (answer, rest) = take_answer(alloc, rest)?;
    Ok((Told::new(caller, call, traced, answer), rest))
}

#[tactic(auto, unfolding(crate::specs::Texts::flag_at))]
fn take_flag(bytes: &[u8]) -> Result<(bool, &[u8]), ReadFault>
    ensures { Gives (λ x. (x.0, x.1.now)) result (flag_at bytes.now) }
{
    let (tag, rest) = take_one(bytes)?;
    match tag {
        0 => Ok((false, rest)),
        1 => Ok((true, rest)),
        _ => Err(ReadFault::NoSpelling),
    }
}

#[tactic(auto, unfolding(crate::specs::Texts::told_answer_at))]
fn take_answer(alloc: Global, bytes: &[u8]) -> Result<(Answer, &[u8]), ReadFault>
    ensures { Gives (λ x. (x.0, x.1.now)) result (told_answer_at bytes.now) }
{
    let (variant, rest) = take_one(bytes)?;
    match variant {
        0 => {
            let (reply, rest) = take_reply(alloc, rest)?;
            Ok((Answer::Reply(reply), rest))
        }
        1 => {
            let (call, rest) = take_eight(rest)?;
            Ok((Answer::Ticket(call), rest))
        }
        2 => Ok((Answer::NotYet, rest)),
        3 => Ok((Answer::NoSpace, rest)),
        4 => {
            let (cause, rest) = take_cause(rest)?;
            Ok((Answer::Retry(cause), rest))
        }
        5 => Ok((Answer::Moved, rest)),
        6 => Ok((Answer::Lost, rest)),
        7 => Ok((Answer::Down, rest)),
        8 => Ok((Answer::Idle, rest)),
        9 => Ok((Answer::Stranger, rest)),
        10 => Ok((Answer::Done, rest)),
        11 => Ok((Answer::AlreadyDead, rest)),
        12 => Ok((Answer::Gone, rest)),
        13 => {
            let (number, rest) = take_eight(rest)?;
            Ok((Answer::Stale(number), rest))
        }
        _ => Err(ReadFault::NoSpelling),
    }
}

#[tactic(auto, unfolding(crate::specs::Texts::cause_at))]
fn take_cause(bytes: &[u8]) -> Result<(Cause, &[u8]), ReadFault>
    ensures { Gives (λ x. (x.0, x.1.now)) result (cause_at bytes.now) }
{
    let (variant, rest) = take_one(bytes)?;
    match variant {
        0 => {
            let (d, rest) = take_one(rest)?;
            let (number, rest) = take_eight(rest)?;
            let partition = Partition(d);
            Ok((Cause::Pending { partition, number }, rest))
        }
        1 => {
            let (block, rest) = take_four(rest)?;
            Ok((Cause::Block { block }, rest))
        }
        _ => Err(ReadFault::NoSpelling),
    }
}

#[tactic(auto, unfolding(crate::specs::Texts::reply_at))]
fn take_reply(alloc: Global, bytes: &[u8]) -> Result<(Reply, &[u8]), ReadFault>
    ensures { Gives (λ x. (x.0, x.1.now)) result (reply_at bytes.now) }
{
    let (variant, rest) = take_one(bytes)?;
    match variant {
        0 => take_shown(alloc, rest),
        1 => Ok((Reply::Miss, rest)),
        2 => Ok((Reply::Stored, rest)),
        3 => Ok((Reply::NotStored, rest)),
        4 => Ok((Reply::Exists, rest)),
        5 => Ok((Reply::NotFound, rest)),
        6 => Ok((Reply::Deleted, rest)),
        7 => Ok((Reply::Touched, rest)),
        8 => {
            let (n, rest) = take_eight(rest)?;
            Ok((Reply::Number(n), rest))
        }
        9 => Ok((Reply::NotNumber, rest)),
        10 => Ok((Reply::TooLarge, rest)),
        _ => Err(ReadFault::NoSpelling),
    }
}

#[tactic(auto, unfolding(crate::specs::Texts::value_reply_at))]
fn take_shown(alloc: Global, bytes: &[u8]) -> Result<(Reply, &[u8]), ReadFault>
    ensures { Gives (λ x. (x.0, x.1.now)) result (value_reply_at bytes.now) }
{
    let (flags, rest) = take_four(bytes)?;
    let (cas, rest) = take_eight(rest)?;
    let (value, rest) = take_value(alloc, rest)?;
    Ok((Reply::Value(Item { flags, cas, value }), rest))
}
