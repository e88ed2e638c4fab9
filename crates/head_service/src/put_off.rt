ghost use Rattle.std.specs.Prelude.{◌≡◌, ◌+◌, ◌<◌, ◌≤◌, nat_le, length, IfNone, IfOk, IfSome, OnErr, Some};
ghost use Rattle.group_types.specs.Dimensions.{space_of};
ghost use Rattle.memc_table.specs.Act.{act_value};
ghost use Rattle.memc_table.specs.declared.holding.Holding.{Holding};
ghost use Rattle.group_message.specs.declared.update.Outcome.{Outcome};
ghost use Rattle.group_run.specs.Deciding.{decide_accepted, decide_left, decide_placed, is_touch, window};
ghost use Rattle.group_run.specs.Free.{place_for};
ghost use Rattle.head_service.specs.Beneath.{found_by};
ghost use Rattle.head_service.specs.Issuing.{IsWholeDecision};
ghost use Rattle.head_service.specs.Wanting.{IssuesUpdate};

use crate::beneath::Beneath;
use crate::body::place;
use crate::ruling::is_touch;
use group_calls::{Decision, Found};
use group_types::Partition;
use memc_table::{Act, Op};
use partition_replica::Replica;
use std::alloc::AllocError;

/// How many updates of a partition may be unfinished.
const WINDOW: u64 = 256;

/// The first unfinished update, where no further one may be issued before it is settled.
pub(crate) fn awaited(replica: &Replica) -> Option<u64>
    ensures first { IfSome result (λ number. number ≡ replica.now.replica.applied + 1) }
    ensures full { IfSome result (λ _. window ≤ length replica.now.replica.log) }
    ensures few { IfNone result (length replica.now.replica.log < window) }
{
    if WINDOW <= replica.last() - replica.applied() {
        return Some(replica.applied() + 1);
    }
    None
}

/// What becomes of an accepted op for whose item there is no memory: it is put off all the same where it has to wait,
/// where its value finds no place, or where a block is missing there. An error tells that its update would be issued.
pub(crate) fn put_off<B: Beneath>(
    partition: Partition,
    replica: &Replica,
    op: &Op,
    below: &B,
) -> Result<Decision, AllocError>
    requires partition { partition.0 < (B.storage below.now).shape.k }
    requires shape { (B.storage below.now).shape ≡ replica.now.shape }
    ensures decision { (outcome : Outcome) (h : Holding) → length h.item.value ≡ length (act_value op.now.act)
        → IfOk result (λ d. d ≡ decide_accepted (nat_le window (length replica.now.replica.log)) replica.now.replica
        (decide_left (space_of replica.now.shape) replica.now.replica (found_by partition.0 (B.storage below.now))
        outcome (is_touch op.now.act) (Some h))) }
    ensures whole { IfOk result (IsWholeDecision replica.now.shape) }
    ensures wanted { (outcome : Outcome) (h : Holding) → length h.item.value ≡ length (act_value op.now.act)
        → OnErr result (IssuesUpdate (decide_accepted (nat_le window (length replica.now.replica.log)) replica.now.replica
        (decide_left (space_of replica.now.shape) replica.now.replica (found_by partition.0 (B.storage below.now))
        outcome (is_touch op.now.act) (Some h)))) }
{
    match awaited(replica) {
        Some(number) => Ok(Decision::Retry(number)),
        None if is_touch(op.act()) => Err(AllocError),
        None => put_nowhere(partition, replica, below, brought(op.act())),
    }
}

// What becomes of a value of so many bytes that isn't there: it finds no place, or a block is missing in it.
fn put_nowhere<B: Beneath>(
    partition: Partition,
    replica: &Replica,
    below: &B,
    len: usize,
) -> Result<Decision, AllocError>
    requires partition { partition.0 < (B.storage below.now).shape.k }
    requires shape { (B.storage below.now).shape ≡ replica.now.shape }
    ensures decision { (outcome : Outcome) (h : Holding) → IfOk result (λ d. d ≡ decide_placed
        (found_by partition.0 (B.storage below.now)) outcome h
        (place_for (space_of replica.now.shape) replica.now.replica len)) }
    ensures whole { IfOk result (IsWholeDecision replica.now.shape) }
    ensures wanted { (outcome : Outcome) (h : Holding) → OnErr result (IssuesUpdate (decide_placed
        (found_by partition.0 (B.storage below.now)) outcome h
        (place_for (space_of replica.now.shape) replica.now.replica len))) }
{
    match place(replica, below.space(), len) {
        None => Ok(Decision::NoSpace),
        Some(run) => match below.find(partition, run)? {
            Found::Missing(block) => Ok(Decision::NeedBlock(block)),
            Found::Bytes(_) => Err(AllocError),
        },
    }
}

// How many bytes the value that an act brings has, 0 where it brings none.
fn brought(act: &Act) -> usize
    ensures { result ≡ length (act_value act.now) }
{
    match act {
        Act::Set { value, .. }
        | Act::Add { value, .. }
        | Act::Replace { value, .. }
        | Act::Cas { value, .. }
        | Act::Append { value, .. }
        | Act::Prepend { value, .. } => value.bytes().len(),
        Act::Get { .. }
        | Act::Delete { .. }
        | Act::Touch { .. }
        | Act::Incr { .. }
        | Act::Decr { .. } => 0,
    }
}
