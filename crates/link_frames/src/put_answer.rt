ghost use Rattle.std.specs.Prelude.{◌≡◌, ◌∷◌, ◌++◌, [], ◌<◌, OnOk};
ghost use Rattle.link_frames.specs.Limits.{FitsToldAnswer, FitsToldCause, FitsToldReply, FitsTold};
ghost use Rattle.wire_codec.specs.Frame.{eight};
ghost use Rattle.link_frames.specs.Spelling as spec;
ghost use Rattle.link_frames.specs.Spelling.{answer_before, flag_byte, reply_before, told_before};

use crate::put_act::{put_call, put_length};
use crate::told::Told;
use group_calls::{Answer, Cause};
use memc_table::Reply;
use std::alloc::AllocError;
use wire_codec::fields::{put_eight, put_four, put_one};

/// What is told, with its kind, up to the bytes of its value.
pub(crate) fn put_told(out: &mut Vec<u8>, told: &Told) -> Result<(), AllocError>
    requires { FitsTold told.now }
    ensures { OnOk result (out.new.items ≡ out.old.items ++ (17 ∷ told_before told.now)) }
{
    put_call(out, 17, told.caller(), told.call())?;
    put_flag(out, told.traced())?;
    put_answer(out, told.answer())
}

fn put_flag(out: &mut Vec<u8>, is_set: bool) -> Result<(), AllocError>
    ensures { OnOk result (out.new.items ≡ out.old.items ++ flag_byte is_set) }
{
    put_one(out, if is_set { 1 } else { 0 })
}

fn put_answer(out: &mut Vec<u8>, answer: &Answer) -> Result<(), AllocError>
    requires { FitsToldAnswer answer.now }
    ensures { OnOk result (out.new.items ≡ out.old.items ++ answer_before answer.now) }
{
    match answer {
        Answer::Reply(reply) => {
            put_one(out, 0)?;
            put_reply(out, reply)
        }
        Answer::Ticket(call) => put_numbered(out, 1, *call),
        Answer::NotYet => put_one(out, 2),
        Answer::NoSpace => put_one(out, 3),
        Answer::Retry(cause) => {
            put_one(out, 4)?;
            put_cause(out, cause)
        }
        Answer::Moved => put_one(out, 5),
        Answer::Lost => put_one(out, 6),
        Answer::Down => put_one(out, 7),
        Answer::Idle => put_one(out, 8),
        Answer::Stranger => put_one(out, 9),
        Answer::Done => put_one(out, 10),
        Answer::AlreadyDead => put_one(out, 11),
        Answer::Gone => put_one(out, 12),
        Answer::Stale(number) => put_numbered(out, 13, *number),
    }
}

/// A variant and a number.
fn put_numbered(out: &mut Vec<u8>, variant: u32, number: u64) -> Result<(), AllocError>
    requires { variant < 256 }
    ensures { OnOk result (out.new.items ≡ out.old.items ++ (variant ∷ eight number)) }
{
    put_one(out, variant)?;
    put_eight(out, number)
}

fn put_cause(out: &mut Vec<u8>, cause: &Cause) -> Result<(), AllocError>
    requires { FitsToldCause cause.now }
    ensures { OnOk result (out.new.items ≡ out.old.items ++ spec.cause cause.now) }
{
    match cause {
        Cause::Pending { partition, number } => {
            put_one(out, 0)?;
            put_one(out, partition.0)?;
            put_eight(out, *number)
        }
        Cause::Block { block } => {
            put_one(out, 1)?;
            put_four(out, *block)
        }
    }
}

fn put_reply(out: &mut Vec<u8>, reply: &Reply) -> Result<(), AllocError>
    requires { FitsToldReply reply.now }
    ensures { OnOk result (out.new.items ≡ out.old.items ++ reply_before reply.now) }
{
    match reply {
        Reply::Value(item) => {
            put_one(out, 0)?;
            put_four(out, item.flags)?;
            put_eight(out, item.cas)?;
            put_length(out, &item.value)
        }
        Reply::Miss => put_one(out, 1),
        Reply::Stored => put_one(out, 2),
        Reply::NotStored => put_one(out, 3),
        Reply::Exists => put_one(out, 4),
        Reply::NotFound => put_one(out, 5),
        Reply::Deleted => put_one(out, 6),
        Reply::Touched => put_one(out, 7),
        Reply::Number(n) => put_numbered(out, 8, *n),
        Reply::NotNumber => put_one(out, 9),
        Reply::TooLarge => put_one(out, 10),
    }
}
