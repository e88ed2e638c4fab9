ghost use Rattle.std.specs.Prelude.{◌≡◌, ◌≤◌, ◌^◌, IfOk};
ghost use Rattle.memc_table.specs.declared.act.Act.TheVariants as asks;
ghost use Rattle.wire_codec.specs.Reading.{Gives, of_two, key_at, decode_number};
ghost use Rattle.std.specs.Int.{w64};
ghost use Rattle.link_frames.specs.Texts.{act_at, ask_at, op_at, cas_at, item_at, moment_at, touch_at, trace_at, value_at};

use crate::request::Request;
use crate::signed::take_signed;
use crate::take_value::take_value;
use crate::wish::Wish;
use group_types::Partition;
use memc_table::{Act, Op};
use std::alloc::Global;
use wire_codec::fields::{ReadFault, take_eight, take_four, take_key, take_one};

/// An ask, behind its kind.
#[tactic(auto, unfolding(crate::specs::Texts::ask_at))]
pub(crate) fn take_ask(alloc: Global, bytes: &[u8]) -> Result<(Request, &[u8]), ReadFault>
    ensures { Gives (λ x. (x.0, x.1.now)) result (ask_at bytes.now) }
{
    let (caller, rest) = take_one(bytes)?;
    let (call, rest) = take_eight(rest)?;
    let (op, rest) = take_op(alloc, rest)?;
    Ok((Request::new(caller, call, Wish::Ask(op)), rest))
}

/// A trace, behind its kind.
#[tactic(auto, unfolding(crate::specs::Texts::trace_at))]
pub(crate) fn take_trace(bytes: &[u8]) -> Result<(Request, &[u8]), ReadFault>
    ensures { Gives (λ x. (x.0, x.1.now)) result (trace_at bytes.now) }
{
    let (caller, rest) = take_one(bytes)?;
    let (call, rest) = take_eight(rest)?;
    let (d, rest) = take_one(rest)?;
    Ok((Request::new(caller, call, Wish::Trace(Partition(d))), rest))
}

#[tactic(auto, unfolding(crate::specs::Texts::op_at))]
fn take_op(alloc: Global, bytes: &[u8]) -> Result<(Op, &[u8]), ReadFault>
    ensures { Gives (λ x. (x.0, x.1.now)) result (op_at bytes.now) }
{
    let (moment, rest) = take_moment(bytes)?;
    let (act, rest) = take_act(alloc, rest)?;
    Ok((Op::new(moment, act), rest))
}

#[tactic(auto, unfolding(crate::specs::Texts::moment_at))]
fn take_moment(bytes: &[u8]) -> Result<(u64, &[u8]), ReadFault>
    ensures value { Gives (λ x. (x.0, x.1.now)) result (moment_at bytes.now) }
    ensures within { IfOk result (λ x. x.0 ≤ 2 ^ 62) }
{
    let (moment, rest) = take_eight(bytes)?;
    if moment > 1 << 62 {
        return Err(ReadFault::NoSpelling);
    }
    Ok((moment, rest))
}

#[tactic(auto, unfolding(crate::specs::Texts::act_at))]
fn take_act(alloc: Global, bytes: &[u8]) -> Result<(Act, &[u8]), ReadFault>
    ensures { Gives (λ x. (x.0, x.1.now)) result (act_at bytes.now) }
{
    let (variant, rest) = take_one(bytes)?;
    match variant {
        0 => {
            let (key, rest) = take_key(alloc, rest)?;
            Ok((Act::Get { key }, rest))
        }
        1 => take_set(alloc, rest),
        2 => take_add(alloc, rest),
        3 => take_replace(alloc, rest),
        4 => take_cas(alloc, rest),
        5 => {
            let (key, rest) = take_key(alloc, rest)?;
            Ok((Act::Delete { key }, rest))
        }
        6 => take_touch(alloc, rest),
        7 => take_append(alloc, rest),
        8 => take_prepend(alloc, rest),
        9 => take_incr(alloc, rest),
        10 => take_decr(alloc, rest),
        _ => Err(ReadFault::NoSpelling),
    }
}

fn take_set(alloc: Global, bytes: &[u8]) -> Result<(Act, &[u8]), ReadFault>
    ensures { Gives (λ x. (x.0, x.1.now)) result (item_at asks.Set bytes.now) }
{
    let (key, rest) = take_key(alloc, bytes)?;
    let (flags, rest) = take_four(rest)?;
    let (expiry, rest) = take_signed(rest)?;
    let (value, rest) = take_value(alloc, rest)?;
    let act = Act::Set {
        key,
        flags,
        expiry,
        value,
    };
    Ok((act, rest))
}

fn take_add(alloc: Global, bytes: &[u8]) -> Result<(Act, &[u8]), ReadFault>
    ensures { Gives (λ x. (x.0, x.1.now)) result (item_at asks.Add bytes.now) }
{
    let (key, rest) = take_key(alloc, bytes)?;
    let (flags, rest) = take_four(rest)?;
    let (expiry, rest) = take_signed(rest)?;
    let (value, rest) = take_value(alloc, rest)?;
    let act = Act::Add {
        key,
        flags,
        expiry,
        value,
    };
    Ok((act, rest))
}

fn take_replace(alloc: Global, bytes: &[u8]) -> Result<(Act, &[u8]), ReadFault>
    ensures { Gives (λ x. (x.0, x.1.now)) result (item_at asks.Replace bytes.now) }
{
    let (key, rest) = take_key(alloc, bytes)?;
    let (flags, rest) = take_four(rest)?;
    let (expiry, rest) = take_signed(rest)?;
    let (value, rest) = take_value(alloc, rest)?;
    let act = Act::Replace {
        key,
        flags,
        expiry,
        value,
    };
    Ok((act, rest))
}

#[tactic(auto, unfolding(crate::specs::Texts::cas_at))]
fn take_cas(alloc: Global, bytes: &[u8]) -> Result<(Act, &[u8]), ReadFault>
    ensures { Gives (λ x. (x.0, x.1.now)) result (cas_at bytes.now) }
{
    let (key, rest) = take_key(alloc, bytes)?;
    let (flags, rest) = take_four(rest)?;
    let (expiry, rest) = take_signed(rest)?;
    let (cas, rest) = take_eight(rest)?;
    let (value, rest) = take_value(alloc, rest)?;
    let act = Act::Cas {
        key,
        flags,
        expiry,
        cas,
        value,
    };
    Ok((act, rest))
}

#[tactic(auto, unfolding(crate::specs::Texts::touch_at))]
fn take_touch(alloc: Global, bytes: &[u8]) -> Result<(Act, &[u8]), ReadFault>
    ensures { Gives (λ x. (x.0, x.1.now)) result (touch_at bytes.now) }
{
    let (key, rest) = take_key(alloc, bytes)?;
    let (expiry, rest) = take_signed(rest)?;
    Ok((Act::Touch { key, expiry }, rest))
}

fn take_append(alloc: Global, bytes: &[u8]) -> Result<(Act, &[u8]), ReadFault>
    ensures { Gives (λ x. (x.0, x.1.now)) result (of_two asks.Append key_at value_at bytes.now) }
{
    let (key, rest) = take_key(alloc, bytes)?;
    let (value, rest) = take_value(alloc, rest)?;
    Ok((Act::Append { key, value }, rest))
}

fn take_prepend(alloc: Global, bytes: &[u8]) -> Result<(Act, &[u8]), ReadFault>
    ensures { Gives (λ x. (x.0, x.1.now)) result (of_two asks.Prepend key_at value_at bytes.now) }
{
    let (key, rest) = take_key(alloc, bytes)?;
    let (value, rest) = take_value(alloc, rest)?;
    Ok((Act::Prepend { key, value }, rest))
}

fn take_incr(alloc: Global, bytes: &[u8]) -> Result<(Act, &[u8]), ReadFault>
    ensures { Gives (λ x. (x.0, x.1.now)) result (of_two asks.Incr key_at (decode_number w64) bytes.now) }
{
    let (key, rest) = take_key(alloc, bytes)?;
    let (by, rest) = take_eight(rest)?;
    Ok((Act::Incr { key, by }, rest))
}

fn take_decr(alloc: Global, bytes: &[u8]) -> Result<(Act, &[u8]), ReadFault>
    ensures { Gives (λ x. (x.0, x.1.now)) result (of_two asks.Decr key_at (decode_number w64) bytes.now) }
{
    let (key, rest) = take_key(alloc, bytes)?;
    let (by, rest) = take_eight(rest)?;
    Ok((Act::Decr { key, by }, rest))
}
