ghost use Rattle.std.specs.Prelude.{◌≡◌};
ghost use Rattle.group_message.specs.declared.update.Body.TheVariants.{Touch};
ghost use Rattle.wire_codec.specs.Reading.{Gives, made_at, long_at, key_at, decode_run, until_at, frees_at, change_at, put_at, body_at, outcome_at, name_at, effect_at, update_at};

use crate::fault::ReadFault;
use crate::numbers::{take, take_eight, take_four, take_one};
use group_message::{Body, Outcome, Update};
use group_types::{Key, KeyFault, Payload, Run};
use std::alloc::Global;

/// An update.
#[tactic(auto, unfolding(crate::specs::Reading::update_at))]
pub(crate) fn take_update(alloc: Global, bytes: &[u8]) -> Result<(Update, &[u8]), ReadFault>
    ensures { Gives (λ x. (x.0, x.1.now)) result (update_at bytes.now) }
{
    let ((number, caller, call), rest) = take_name(bytes)?;
    let (key, rest) = take_key(alloc, rest)?;
    let (body, rest) = take_body(alloc, rest)?;
    let ((frees, outcome), rest) = take_effect(rest)?;
    let update = Update {
        number,
        caller,
        call,
        key,
        body,
        frees,
        outcome,
    };
    Ok((update, rest))
}

#[tactic(auto, unfolding(crate::specs::Reading::name_at))]
fn take_name(bytes: &[u8]) -> Result<((u64, u32, u64), &[u8]), ReadFault>
    ensures { Gives (λ x. (x.0, x.1.now)) result (name_at bytes.now) }
{
    let (number, rest) = take_eight(bytes)?;
    let (caller, rest) = take_one(rest)?;
    let (call, rest) = take_eight(rest)?;
    Ok(((number, caller, call), rest))
}

#[tactic(auto, unfolding(crate::specs::Reading::effect_at))]
fn take_effect(bytes: &[u8]) -> Result<((Option<Run>, Outcome), &[u8]), ReadFault>
    ensures { Gives (λ x. (x.0, x.1.now)) result (effect_at bytes.now) }
{
    let (frees, rest) = take_frees(bytes)?;
    let (outcome, rest) = take_outcome(rest)?;
    Ok(((frees, outcome), rest))
}

/// A key, with its length before it in one byte.
#[tactic(auto, unfolding(crate::specs::Reading::key_at))]
pub fn take_key(alloc: Global, bytes: &[u8]) -> Result<(Key, &[u8]), ReadFault>
    ensures { Gives (λ x. (x.0, x.1.now)) result (key_at bytes.now) }
{
    let (len, rest) = take_one(bytes)?;
    let (key, rest) = take(rest, len as usize)?;
    match Key::read(alloc, key) {
        Ok(key) => Ok((key, rest)),
        Err(KeyFault::BadKey) => Err(ReadFault::NoSpelling),
        Err(KeyFault::Want) => Err(ReadFault::Want),
    }
}

#[tactic(auto, unfolding(crate::specs::Reading::body_at))]
fn take_body(alloc: Global, bytes: &[u8]) -> Result<(Body, &[u8]), ReadFault>
    ensures { Gives (λ x. (x.0, x.1.now)) result (body_at bytes.now) }
{
    let (tag, rest) = take_one(bytes)?;
    match tag {
        0 => take_put(alloc, rest),
        1 => Ok((Body::Remove, rest)),
        2 => take_touch(rest),
        _ => Err(ReadFault::NoSpelling),
    }
}

fn take_touch(bytes: &[u8]) -> Result<(Body, &[u8]), ReadFault>
    ensures { Gives (λ x. (x.0, x.1.now)) result (made_at Touch until_at bytes.now) }
{
    let (until, rest) = take_until(bytes)?;
    Ok((Body::Touch { until }, rest))
}

#[tactic(auto, unfolding(crate::specs::Reading::put_at))]
fn take_put(alloc: Global, bytes: &[u8]) -> Result<(Body, &[u8]), ReadFault>
    ensures { Gives (λ x. (x.0, x.1.now)) result (put_at bytes.now) }
{
    let (flags, rest) = take_four(bytes)?;
    let (until, rest) = take_until(rest)?;
    let ((run, delta), rest) = take_change(rest)?;
    let delta = Payload::of(alloc, delta)?;
    let body = Body::Put {
        flags,
        until,
        run,
        delta,
    };
    Ok((body, rest))
}

/// A run, and as many bytes.
#[tactic(auto, unfolding(crate::specs::Reading::change_at))]
fn take_change(bytes: &[u8]) -> Result<((Run, &[u8]), &[u8]), ReadFault>
    ensures { Gives (λ x. ((x.0.0, x.0.1.now), x.1.now)) result (change_at bytes.now) }
{
    let (run, rest) = take_run(bytes)?;
    let (delta, rest) = take_long(rest)?;
    if delta.len() != run.len as usize {
        return Err(ReadFault::NoSpelling);
    }
    Ok(((run, delta), rest))
}

/// Bytes, with their number before them in four bytes.
#[tactic(auto, unfolding(crate::specs::Reading::long_at))]
pub fn take_long(bytes: &[u8]) -> Result<(&[u8], &[u8]), ReadFault>
    ensures { Gives (λ x. (x.0.now, x.1.now)) result (long_at bytes.now) }
{
    let (len, rest) = take_four(bytes)?;
    take(rest, len as usize)
}

#[tactic(auto, unfolding(crate::specs::Reading::decode_run))]
fn take_run(bytes: &[u8]) -> Result<(Run, &[u8]), ReadFault>
    ensures { Gives (λ x. (x.0, x.1.now)) result (decode_run bytes.now) }
{
    let (at, rest) = take_four(bytes)?;
    let (len, rest) = take_four(rest)?;
    Ok((Run { at, len }, rest))
}

#[tactic(auto, unfolding(crate::specs::Reading::until_at))]
fn take_until(bytes: &[u8]) -> Result<(Option<u64>, &[u8]), ReadFault>
    ensures { Gives (λ x. (x.0, x.1.now)) result (until_at bytes.now) }
{
    let (tag, rest) = take_one(bytes)?;
    match tag {
        0 => Ok((None, rest)),
        1 => {
            let (until, rest) = take_eight(rest)?;
            Ok((Some(until), rest))
        }
        _ => Err(ReadFault::NoSpelling),
    }
}

#[tactic(auto, unfolding(crate::specs::Reading::frees_at))]
fn take_frees(bytes: &[u8]) -> Result<(Option<Run>, &[u8]), ReadFault>
    ensures { Gives (λ x. (x.0, x.1.now)) result (frees_at bytes.now) }
{
    let (tag, rest) = take_one(bytes)?;
    match tag {
        0 => Ok((None, rest)),
        1 => {
            let (run, rest) = take_run(rest)?;
            Ok((Some(run), rest))
        }
        _ => Err(ReadFault::NoSpelling),
    }
}

#[tactic(auto, unfolding(crate::specs::Reading::outcome_at))]
fn take_outcome(bytes: &[u8]) -> Result<(Outcome, &[u8]), ReadFault>
    ensures { Gives (λ x. (x.0, x.1.now)) result (outcome_at bytes.now) }
{
    let (tag, rest) = take_one(bytes)?;
    match tag {
        0 => Ok((Outcome::Stored, rest)),
        1 => Ok((Outcome::Deleted, rest)),
        2 => Ok((Outcome::Touched, rest)),
        3 => {
            let (number, rest) = take_eight(rest)?;
            Ok((Outcome::Number(number), rest))
        }
        _ => Err(ReadFault::NoSpelling),
    }
}
