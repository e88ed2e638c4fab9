ghost use Rattle.std.specs.Prelude.{◌≡◌, ◌&&◌, ◌<◌, ◌^◌, nat_lt, IfOk, OnErr, Some};
ghost use Rattle.memc_table.specs.Expiry.{is_live, live_at};
ghost use Rattle.memc_table.specs.Ruling.{HoldsItem, ruling_of};
ghost use Rattle.group_run.specs.Deciding.{blind_reply, held_as, is_get, is_touch, outcome_of, reads_bytes, ruling_with, run_needed, unseen, waits_for};
ghost use Rattle.group_run.specs.Replica as machine;
ghost use Rattle.group_run.specs.Replica.{last_of, run_in};

use group_message::Outcome;
use group_types::Payload;
use item_index::Slot;
use memc_table::expiry::live;
use memc_table::rule::{LONGEST_VALUE, rule};
use memc_table::ruling::Ruling;
use memc_table::{Act, Holding, Item, Op, Reply};
use partition_replica::Replica;
use std::alloc::{AllocError, Global};

/// The longest numeral, in bytes.
const LONGEST_NUMERAL: u32 = 20;

/// The update that an act has to wait for, where `last` is the last unfinished one on its key: any, or
/// for a get one that the head inherited.
pub fn waits_for(inherited: u64, act: &Act, last: Option<u64>) -> Option<u64>
    ensures { result ≡ waits_for inherited act.now last }
{
    match act {
        Act::Get { .. } => last.filter(|number| *number <= inherited),
        _ => last,
    }
}

/// Whether the act is a get.
pub fn is_get(act: &Act) -> bool
    ensures { result ≡ is_get act.now }
{
    matches!(act, Act::Get { .. })
}

/// Whether the act is a touch.
pub fn is_touch(act: &Act) -> bool
    ensures { result ≡ is_touch act.now }
{
    matches!(act, Act::Touch { .. })
}

/// What an update that gets this reply is answered.
pub fn outcome_of(reply: &Reply) -> Outcome
    ensures { result ≡ outcome_of reply.now }
{
    match reply {
        Reply::Number(number) => Outcome::Number(*number),
        Reply::Deleted => Outcome::Deleted,
        Reply::Touched => Outcome::Touched,
        _ => Outcome::Stored,
    }
}

/// Whether an op needs the bytes of the item on its key.
pub fn needs_bytes(op: &Op, slot: &Slot) -> bool
    ensures { result ≡ (reads_bytes op.now.act && is_live op.now.moment slot.now.until && nat_lt 0 slot.now.len) }
{
    let reads = matches!(
        op.act(),
        Act::Get { .. }
            | Act::Append { .. }
            | Act::Prepend { .. }
            | Act::Incr { .. }
            | Act::Decr { .. }
    );
    let live = match slot.until {
        Some(until) => op.now() < until,
        None => true,
    };
    reads && live && 0 < slot.len
}

/// What an op that needs the bytes of an item is answered by their number alone, if it is.
pub fn blind_reply(op: &Op, slot: Slot) -> Option<Reply>
    requires needed { run_needed op.now (Some slot) ≡ Some (run_in slot) }
    ensures { (r : machine.Replica) → result
        ≡ blind_reply slot.len (ruling_with r op.now (Some slot) (unseen (Some slot))) }
{
    match op.act() {
        Act::Append { value, .. } | Act::Prepend { value, .. }
            if LONGEST_VALUE < slot.len as usize + value.bytes().len() => { Some(Reply::TooLarge) }
        Act::Incr { .. } | Act::Decr { .. } if LONGEST_NUMERAL < slot.len => Some(Reply::NotNumber),
        _ => None,
    }
}

/// What the table makes of an op on the settled item, with these bytes as its value.
pub fn ruling_with(
    alloc: Global,
    replica: &Replica,
    op: &Op,
    slot: Option<Slot>,
    value: Payload,
) -> Result<Ruling, AllocError>
    requires { last_of replica.now.replica < 2 ^ 62 }
    ensures ruling { IfOk result (λ ruling. ruling ≡ ruling_with replica.now.replica op.now slot value) }
    ensures wanted { OnErr result (HoldsItem (ruling_with replica.now.replica op.now slot value)) }
{
    let number = replica.last() + 1;
    match slot {
        None => rule(alloc, op, number, None),
        Some(slot) => {
            let held = held_as(slot, value);
            rule_held(alloc, op, number, &held)
        }
    }
}

fn rule_held(alloc: Global, op: &Op, number: u64, held: &Holding) -> Result<Ruling, AllocError>
    ensures ruling { IfOk result (λ ruling. ruling
        ≡ ruling_of op.now.moment number op.now.act (live_at op.now.moment (Some held.now))) }
    ensures wanted { OnErr result (HoldsItem (ruling_of op.now.moment number op.now.act
        (live_at op.now.moment (Some held.now)))) }
{
    rule(alloc, op, number, live(op.now(), Some(held)))
}

fn held_as(slot: Slot, value: Payload) -> Holding
    ensures { result ≡ held_as slot value }
{
    let item = Item {
        flags: slot.flags,
        cas: slot.cas,
        value,
    };
    Holding {
        item,
        until: slot.until,
    }
}
