ghost use Rattle.std.specs.Prelude.{◌≡◌, ◌⊎◌, ◌+◌, ◌<◌, ◌≤◌, ◌^◌, IfOk, IfSome, OnErr, None, Some};
ghost use Rattle.group_types.specs.Dimensions.{space_of};
ghost use Rattle.memc_table.specs.Act.{key_of};
ghost use Rattle.group_run.specs.Deciding.{decide, decide_found, decide_ruled, decide_waiting, run_needed};
ghost use Rattle.group_run.specs.Replica.{last_of, run_in, slot_in};
ghost use Rattle.head_service.specs.Beneath.{found_by};
ghost use Rattle.head_service.specs.Issuing.{CanFollow, IsWholeDecision};
ghost use Rattle.head_service.specs.Wanting.{IsThere, IssuesUpdate, MayWant, ReadsItem, TakesMemory};

use crate::beneath::Beneath;
use crate::body::decide_left;
use crate::put_off::{awaited, put_off};
use crate::ruling::{
    blind_reply, is_get, is_touch, needs_bytes, outcome_of, ruling_with, waits_for,
};
use group_calls::{Decision, Found};
use group_types::{Partition, Payload, Run};
use item_index::Slot;
use memc_table::Op;
use memc_table::ruling::Ruling;
use partition_replica::Replica;
use std::alloc::{AllocError, Global};

/// What the head of a partition, which inherited updates up to a number, decides of a call.
pub fn decide<B: Beneath>(
    alloc: Global,
    partition: Partition,
    inherited: u64,
    replica: &Replica,
    op: &Op,
    below: &B,
) -> Result<Decision, AllocError>
    requires partition { partition.0 < (B.storage below.now).shape.k }
    requires numbers { last_of replica.now.replica < 2 ^ 62 }
    requires shape { (B.storage below.now).shape ≡ replica.now.shape }
    ensures decision { IfOk result (λ d. d ≡ decide (space_of replica.now.shape) inherited replica.now.replica op.now
        (found_by partition.0 (B.storage below.now))) }
    ensures follows { IfOk result (λ d. CanFollow replica.now.shape replica.now.replica (key_of op.now.act) d) }
    ensures wanted { OnErr result (MayWant (space_of replica.now.shape) inherited replica.now.replica op.now
        (found_by partition.0 (B.storage below.now))) }
{
    let last = replica.unfinished(op.act().key());
    match waits_for(inherited, op.act(), last) {
        Some(number) => Ok(Decision::Retry(number)),
        None => decide_settled(alloc, partition, replica, op, below),
    }
}

// No update on the key stands in the way.
fn decide_settled<B: Beneath>(
    alloc: Global,
    partition: Partition,
    replica: &Replica,
    op: &Op,
    below: &B,
) -> Result<Decision, AllocError>
    requires partition { partition.0 < (B.storage below.now).shape.k }
    requires numbers { last_of replica.now.replica < 2 ^ 62 }
    requires shape { (B.storage below.now).shape ≡ replica.now.shape }
    ensures decision { IfOk result (λ d. d ≡ decide_waiting (space_of replica.now.shape) replica.now.replica op.now
        (found_by partition.0 (B.storage below.now)) (slot_in replica.now.replica.items (key_of op.now.act)) None) }
    ensures whole { IfOk result (IsWholeDecision replica.now.shape) }
    ensures wanted { OnErr result (ReadsItem replica.now.replica op.now
        (slot_in replica.now.replica.items (key_of op.now.act)) (found_by partition.0 (B.storage below.now))
        ⊎ TakesMemory (decide_waiting (space_of replica.now.shape) replica.now.replica op.now
        (found_by partition.0 (B.storage below.now)) (slot_in replica.now.replica.items (key_of op.now.act)) None)) }
{
    let slot = item(replica, op);
    match slot {
        Some(item) if needs_bytes(op, &item) => {
            decide_read(alloc, partition, replica, op, below, item)
        }
        _ => decide_unread(alloc, partition, replica, op, below, slot),
    }
}

// The settled item that an op asks for.
fn item(replica: &Replica, op: &Op) -> Option<Slot>
    ensures item { result ≡ slot_in replica.now.replica.items (key_of op.now.act) }
    ensures inside { IfSome result (λ slot. slot.at + slot.len ≤ space_of replica.now.shape) }
{
    replica.item(op.act().key())
}

// Nobody looks at the bytes of the item, so that none will do as well.
fn decide_unread<B: Beneath>(
    alloc: Global,
    partition: Partition,
    replica: &Replica,
    op: &Op,
    below: &B,
    slot: Option<Slot>,
) -> Result<Decision, AllocError>
    requires partition { partition.0 < (B.storage below.now).shape.k }
    requires numbers { last_of replica.now.replica < 2 ^ 62 }
    requires shape { (B.storage below.now).shape ≡ replica.now.shape }
    requires needed { run_needed op.now slot ≡ None }
    ensures decision { IfOk result (λ d. d ≡ decide_waiting (space_of replica.now.shape) replica.now.replica op.now
        (found_by partition.0 (B.storage below.now)) slot None) }
    ensures whole { IfOk result (IsWholeDecision replica.now.shape) }
    ensures wanted { OnErr result (TakesMemory (decide_waiting (space_of replica.now.shape) replica.now.replica op.now
        (found_by partition.0 (B.storage below.now)) slot None)) }
{
    match ruling_with(alloc, replica, op, slot, Payload::empty()) {
        Ok(ruling) => decide_ruled(partition, replica, op, below, ruling),
        Err(error) if is_get(op.act()) => Err(error),
        Err(_) => put_off(partition, replica, op, below),
    }
}

// The op needs the bytes of the item, unless their number alone says what comes of it.
fn decide_read<B: Beneath>(
    alloc: Global,
    partition: Partition,
    replica: &Replica,
    op: &Op,
    below: &B,
    slot: Slot,
) -> Result<Decision, AllocError>
    requires partition { partition.0 < (B.storage below.now).shape.k }
    requires numbers { last_of replica.now.replica < 2 ^ 62 }
    requires shape { (B.storage below.now).shape ≡ replica.now.shape }
    requires needed { run_needed op.now (Some slot) ≡ Some (run_in slot) }
    requires inside { slot.at + slot.len ≤ space_of replica.now.shape }
    ensures decision { IfOk result (λ d. d ≡ decide_waiting (space_of replica.now.shape) replica.now.replica op.now
        (found_by partition.0 (B.storage below.now)) (Some slot) None) }
    ensures whole { IfOk result (IsWholeDecision replica.now.shape) }
    ensures wanted { OnErr result (ReadsItem replica.now.replica op.now (Some slot)
        (found_by partition.0 (B.storage below.now))) }
{
    match blind_reply(op, slot) {
        Some(reply) => Ok(Decision::Answer(reply)),
        None => decide_found(alloc, partition, replica, op, below, slot),
    }
}

// What comes of the bytes of the item.
fn decide_found<B: Beneath>(
    alloc: Global,
    partition: Partition,
    replica: &Replica,
    op: &Op,
    below: &B,
    slot: Slot,
) -> Result<Decision, AllocError>
    requires partition { partition.0 < (B.storage below.now).shape.k }
    requires numbers { last_of replica.now.replica < 2 ^ 62 }
    requires shape { (B.storage below.now).shape ≡ replica.now.shape }
    requires inside { slot.at + slot.len ≤ space_of replica.now.shape }
    ensures decision { IfOk result (λ d. d ≡ decide_found (space_of replica.now.shape) replica.now.replica op.now
        (found_by partition.0 (B.storage below.now)) (Some slot)
        (found_by partition.0 (B.storage below.now) (run_in slot))) }
    ensures whole { IfOk result (IsWholeDecision replica.now.shape) }
    ensures wanted { OnErr result (IsThere (found_by partition.0 (B.storage below.now) (run_in slot))) }
{
    let run = Run {
        at: slot.at,
        len: slot.len,
    };
    match below.find(partition, run)? {
        Found::Missing(block) => Ok(Decision::NeedBlock(block)),
        Found::Bytes(bytes) => {
            let value = Payload::from_vec(Vec::from(bytes))?;
            let ruling = ruling_with(alloc, replica, op, Some(slot), value)?;
            decide_ruled(partition, replica, op, below, ruling)
        }
    }
}

fn decide_ruled<B: Beneath>(
    partition: Partition,
    replica: &Replica,
    op: &Op,
    below: &B,
    ruling: Ruling,
) -> Result<Decision, AllocError>
    requires partition { partition.0 < (B.storage below.now).shape.k }
    requires shape { (B.storage below.now).shape ≡ replica.now.shape }
    ensures decision { IfOk result (λ d. d ≡ decide_ruled (space_of replica.now.shape) replica.now.replica op.now
        (found_by partition.0 (B.storage below.now)) ruling) }
    ensures whole { IfOk result (IsWholeDecision replica.now.shape) }
    ensures wanted { OnErr result (IssuesUpdate (decide_ruled (space_of replica.now.shape) replica.now.replica op.now
        (found_by partition.0 (B.storage below.now)) ruling)) }
{
    match ruling {
        Ruling::Refused(reply) => Ok(Decision::Answer(reply)),
        Ruling::Accepted { reply, leaves } => {
            match awaited(replica) {
                Some(number) => Ok(Decision::Retry(number)),
                None => {
                    let outcome = outcome_of(&reply);
                    let touch = is_touch(op.act());
                    decide_left(partition, replica, below, outcome, touch, leaves)
                }
            }
        }
    }
}
