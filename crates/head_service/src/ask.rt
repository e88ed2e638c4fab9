ghost use Rattle.std.specs.Prelude.{[], ◌≡◌, ◌<◌, ◌^◌, IfOk, OnErr};
ghost use Rattle.group_types.specs.Dimensions.{space_of};
ghost use Rattle.memc_table.specs.Act.{key_of};
ghost use Rattle.group_calls.specs.declared.decision.Decision.{Decision};
ghost use Rattle.group_run.specs.Replica.{callers, freed_by, last_of};
ghost use Rattle.head_service.specs.Acting.{IsMade, acts, decision_of, name_of_call, next_update};
ghost use Rattle.head_service.specs.Beneath.{found_by};
ghost use Rattle.head_service.specs.Issuing.{CanFollow};
ghost use Rattle.head_service.specs.Paging.{DecisionMisses};
ghost use Rattle.head_service.specs.Seat.{ChangesOnlyRoom, IsHeadSeat, IsWholeSeat};
ghost use Rattle.head_service.specs.Storage.{MakesReady};
ghost use Rattle.head_service.specs.Wanting.{IssuesUpdate, MayWant};
ghost use Rattle.head_service.specs.declared.ask.Asking.TheVariants.{Done};
ghost use Rattle.head_service.specs.declared.step.CallStep.{CallStep};

use crate::beneath::Beneath;
use crate::decide::decide;
use crate::head::Head;
use crate::held::Held;
use crate::issue::issue;
use crate::peers::Peers;
use crate::step::CallStep;
use group_calls::{Answer, Cause, Decision};
use group_message::{Body, Outcome, Update};
use group_types::{Partition, Run};
use item_index::Slot;
use memc_table::Op;
use partition_replica::Replica;
use std::alloc::{AllocError, Global};

/// Which call it is: the caller's number, and the call's number among the caller's.
#[derive(Clone, Copy, Debug)]
pub struct Call {
    pub caller: u32,
    pub number: u64,
}

/// What the head of a partition makes of a call: a step, or a block that has to be rebuilt first.
#[derive(Debug, Drop)]
pub enum Asking {
    Done(CallStep),
    Need(u32),
}

/// The head of a partition is asked a call. After want of memory nothing but room has changed.
pub fn ask<B: Beneath>(
    partition: Partition,
    call: Call,
    op: &Op,
    head: &Head,
    peers: &Peers,
    replica: &mut Replica,
    held: &mut Vec<Held>,
    below: &mut B,
) -> Result<Asking, AllocError>
    requires caller { call.caller < callers }
    requires numbers { last_of replica.old.replica < 2 ^ 62 }
    requires seat { IsHeadSeat partition.0 peers.now head.now replica.old (B.storage below.old) }
    ensures seat { IsWholeSeat partition.0 replica.new (B.storage below.new) }
    ensures makes { MakesReady (DecisionMisses (B.storage below.old).shape.block
        (decision_of partition.0 head.now op.now replica.old (B.storage below.old)))
        (B.storage below.old) (B.storage below.new) }
    ensures made { IfOk result (λ asked.
        let decision : Decision = decision_of partition.0 head.now op.now replica.old (B.storage below.old) in
        IsMade replica.old.shape decision (acts (B.storage below.old).shape partition.0 peers.now head.now
        (name_of_call call) op.now replica.old.replica held.old.items (B.storage below.old).process decision)
        asked replica.new.replica held.new.items (B.storage below.new).process) }
    ensures wanted { OnErr result (MayWant (space_of replica.old.shape) head.now.inherited replica.old.replica op.now
        (found_by partition.0 (B.storage below.old))) }
    ensures err { OnErr result ((held.new.items ≡ held.old.items)
        × ChangesOnlyRoom replica.old replica.new (B.storage below.old) (B.storage below.new)) }
{
    let alloc = *held.allocator();
    let decision = decide(alloc, partition, head.inherited(), replica, op, below)?;
    act(
        partition, call, op, head, peers, decision, replica, held, below,
    )
}

fn act<B: Beneath>(
    partition: Partition,
    call: Call,
    op: &Op,
    head: &Head,
    peers: &Peers,
    decision: Decision,
    replica: &mut Replica,
    held: &mut Vec<Held>,
    below: &mut B,
) -> Result<Asking, AllocError>
    requires caller { call.caller < callers }
    requires numbers { last_of replica.old.replica < 2 ^ 62 }
    requires follows { CanFollow replica.old.shape replica.old.replica (key_of op.now.act) decision }
    requires seat { IsHeadSeat partition.0 peers.now head.now replica.old (B.storage below.old) }
    ensures seat { IsWholeSeat partition.0 replica.new (B.storage below.new) }
    ensures makes { MakesReady (DecisionMisses (B.storage below.old).shape.block decision) (B.storage below.old)
        (B.storage below.new) }
    ensures made { IfOk result (λ asked. IsMade replica.old.shape decision
        (acts (B.storage below.old).shape partition.0 peers.now head.now (name_of_call call) op.now
        replica.old.replica held.old.items (B.storage below.old).process decision)
        asked replica.new.replica held.new.items (B.storage below.new).process) }
    ensures wanted { OnErr result (IssuesUpdate decision) }
    ensures err { OnErr result ((held.new.items ≡ held.old.items)
        × ChangesOnlyRoom replica.old replica.new (B.storage below.old) (B.storage below.new)) }
{
    let alloc = *held.allocator();
    match decision {
        Decision::Answer(reply) => Ok(only(alloc, Answer::Reply(reply))),
        Decision::Retry(number) => {
            let cause = Cause::Pending { partition, number };
            Ok(only(alloc, Answer::Retry(cause)))
        }
        Decision::NoSpace => Ok(only(alloc, Answer::NoSpace)),
        Decision::NeedBlock(block) => Ok(Asking::Need(block)),
        Decision::Issue { body, outcome } => {
            let update = next(call, op, body, outcome, replica)?;
            let step = issue(partition, head, peers, update, replica, held, below)?;
            Ok(Asking::Done(step))
        }
    }
}

fn only(alloc: Global, answer: Answer) -> Asking
    ensures { (step : CallStep) × (result ≡ Done step) × (step.answer ≡ answer) × (step.sent.items ≡ [])
        × (step.settled.items ≡ []) }
{
    Asking::Done(CallStep::only(alloc, answer))
}

/// The next update of the partition.
fn next(
    call: Call,
    op: &Op,
    body: Body,
    outcome: Outcome,
    replica: &Replica,
) -> Result<Update, AllocError>
    requires { last_of replica.now.replica < 2 ^ 62 }
    ensures { IfOk result (λ u. u ≡ next_update (name_of_call call) op.now body outcome replica.now.replica) }
{
    let key = op.act().key();
    Ok(Update {
        number: replica.last() + 1,
        caller: call.caller,
        call: call.number,
        key: key.clone()?,
        frees: freed(&body, replica.item(key)),
        body,
        outcome,
    })
}

// The run that an update gives back: that of the item which it replaces or removes, and none of a touch.
fn freed(body: &Body, item: Option<Slot>) -> Option<Run>
    ensures { result ≡ freed_by body.now item }
{
    match (body, item) {
        (Body::Touch { .. }, _) | (_, None) => None,
        (_, Some(slot)) => Some(Run {
            at: slot.at,
            len: slot.len,
        }),
    }
}
