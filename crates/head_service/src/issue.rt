ghost use Rattle.std.specs.Prelude.{◌≡◌, ◌+◌, ◌-◌, ◌<◌, ◌≤◌, [], ◌∷◌, ◌++◌, length, vec_len, vec_capacity, IfOk, OnOk, OnErr};
ghost use Rattle.group_types.specs.Dimensions.{space_of};
ghost use Rattle.group_calls.specs.declared.event.Answer.TheVariants as says;
ghost use Rattle.group_run.specs.Asking.{reply_from};
ghost use Rattle.group_run.specs.Fitting.{CanCome, Writes};
ghost use Rattle.group_run.specs.Replica.{last_of};
ghost use Rattle.partition_replica.specs.State.{is_touched};
ghost use Rattle.head_service.specs.Acting.{IsHeadStep, issued_up_to, issues};
ghost use Rattle.head_service.specs.Issuing.{IsReadyToIssue};
ghost use Rattle.head_service.specs.Paging.{Misses};
ghost use Rattle.head_service.specs.Seat.{ChangesOnlyRoom, HasRoomFor, IsHeadSeat, IsSeatBut, IsWholeSeat, OwesOnly};
ghost use Rattle.head_service.specs.Settling.{IsRoomFor};
ghost use Rattle.head_service.specs.Storage.{MakesReady, StaysReady};

use crate::beneath::Beneath;
use crate::head::Head;
use crate::held::{Held, reply};
use crate::news::{News, copy_of};
use crate::peers::Peers;
use crate::settle::{settle_to, tidy};
use crate::step::{CallStep, Sent, Settlement};
use group_calls::Answer;
use group_message::Update;
use group_types::Partition;
use partition_replica::Replica;
use std::alloc::{AllocError, Global};

/// The head of a partition issues an update: it tells the others, and settles what it may. After want of
/// memory nothing but room has changed.
pub fn issue<B: Beneath>(
    partition: Partition,
    head: &Head,
    peers: &Peers,
    update: Update,
    replica: &mut Replica,
    held: &mut Vec<Held>,
    below: &mut B,
) -> Result<CallStep, AllocError>
    requires next { update.number ≡ last_of replica.old.replica + 1 }
    requires comes { CanCome (space_of replica.old.shape) replica.old.replica update }
    requires seat { IsHeadSeat partition.0 peers.now head.now replica.old (B.storage below.old) }
    ensures seat { IsWholeSeat partition.0 replica.new (B.storage below.new) }
    ensures makes { MakesReady (Misses (B.storage below.old).shape.block update.body) (B.storage below.old)
        (B.storage below.new) }
    ensures made { IfOk result (λ step. IsHeadStep (issues (B.storage below.old).shape partition.0 peers.now head.now update
        replica.old.replica held.old.items (B.storage below.old).process)
        step replica.new.replica held.new.items (B.storage below.new).process) }
    ensures err { OnErr result ((held.new.items ≡ held.old.items)
        × ChangesOnlyRoom replica.old replica.new (B.storage below.old) (B.storage below.new)) }
{
    match prepare(partition, head, peers, &update, replica, held, below) {
        Ok(prepared) => Ok(carry_out(partition, prepared, update, replica, held, below)),
        Err(AllocError) => {
            replica.tidy(&update.key);
            Err(AllocError)
        }
    }
}

/// What a step takes of memory, made before it changes anything, and the number that it settles up to.
struct Prepared {
    sent: Vec<Sent>,
    settled: Vec<Settlement>,
    number: u64,
}

fn prepare<B: Beneath>(
    partition: Partition,
    head: &Head,
    peers: &Peers,
    update: &Update,
    replica: &mut Replica,
    held: &mut Vec<Held>,
    below: &mut B,
) -> Result<Prepared, AllocError>
    requires writes { Writes (space_of (B.storage below.old).shape) update.now.body }
    requires seat { IsHeadSeat partition.0 peers.now head.now replica.old (B.storage below.old) }
    ensures seat { IsSeatBut (is_touched (update.now ∷ [])) partition.0 replica.new (B.storage below.new) }
    ensures makes { MakesReady (Misses (B.storage below.old).shape.block update.now.body) (B.storage below.old)
        (B.storage below.new) }
    ensures same { ChangesOnlyRoom replica.old replica.new (B.storage below.old) (B.storage below.new) }
    ensures held { held.new.items ≡ held.old.items }
    ensures room { OnOk result (HasRoomFor partition.0 update.now replica.new (vec_len held.new)
        (vec_capacity held.new) (B.storage below.new)) }
    ensures prepared { IfOk result (λ p. IsReadyToIssue peers.now head.now partition.0 update.now
        replica.old.replica.applied
        p.number p.sent.items p.settled.items (vec_capacity p.settled)) }
{
    make_room(partition, update, replica, held, below)?;
    Prepared::of(
        *held.allocator(),
        partition,
        head,
        peers,
        update,
        replica.applied(),
    )
}

/// Room for an update at a replica, among the held calls and beneath.
fn make_room<B: Beneath>(
    partition: Partition,
    update: &Update,
    replica: &mut Replica,
    held: &mut Vec<Held>,
    below: &mut B,
) -> Result<(), AllocError>
    requires partition { partition.0 < (B.storage below.old).shape.k }
    requires writes { Writes (space_of (B.storage below.old).shape) update.now.body }
    ensures makes { MakesReady (Misses (B.storage below.old).shape.block update.now.body) (B.storage below.old)
        (B.storage below.new) }
    ensures same { ChangesOnlyRoom replica.old replica.new (B.storage below.old) (B.storage below.new) }
    ensures held { held.new.items ≡ held.old.items }
    ensures shape { replica.new.shape ≡ replica.old.shape }
    ensures owed { OwesOnly (update.now ∷ []) replica.old replica.new }
    ensures room { OnOk result (HasRoomFor partition.0 update.now replica.new (vec_len held.new)
        (vec_capacity held.new) (B.storage below.new)) }
{
    replica.reserve(update)?;
    below.reserve(partition, update)?;
    held.reserve(1)
}

impl Prepared {
    /// What is sent of an issued update, and room for what it settles.
    fn of(
        alloc: Global,
        partition: Partition,
        head: &Head,
        peers: &Peers,
        update: &Update,
        applied: u64,
    ) -> Result<Prepared, AllocError>
        requires acks { length head.now.acks ≡ peers.now.m }
        ensures { IfOk result (λ p. IsReadyToIssue peers.now head.now partition.0 update.now applied
            p.number p.sent.items p.settled.items (vec_capacity p.settled)) }
    {
        let number = peers.least_acked(head, update.number);
        let settled = Vec::with_capacity(alloc, number.saturating_sub(applied) as usize)?;
        let update = copy_of(update)?;
        let news = News::Issued {
            update,
            stable: applied,
        };
        let mut sent = Vec::with_capacity(alloc, peers.m as usize)?;
        peers.tell(head.rank(), partition, &news, &mut sent)?;
        Ok(Prepared {
            sent,
            settled,
            number,
        })
    }
}

fn carry_out<B: Beneath>(
    partition: Partition,
    prepared: Prepared,
    update: Update,
    replica: &mut Replica,
    held: &mut Vec<Held>,
    below: &mut B,
) -> CallStep
    requires next { update.number ≡ last_of replica.old.replica + 1 }
    requires comes { CanCome (space_of replica.old.shape) replica.old.replica update }
    requires seat { IsSeatBut (is_touched (update ∷ [])) partition.0 replica.old (B.storage below.old) }
    requires room { HasRoomFor partition.0 update replica.old (vec_len held.old) (vec_capacity held.old)
        (B.storage below.old) }
    requires settled { IsRoomFor (prepared.number - replica.old.replica.applied) prepared.settled.items
        (vec_capacity prepared.settled) }
    ensures seat { IsWholeSeat partition.0 replica.new (B.storage below.new) }
    ensures stays { StaysReady (B.storage below.old) (B.storage below.new) }
    ensures made { IsHeadStep (issued_up_to prepared.number prepared.sent.items (B.storage below.old).shape partition.0
        update replica.old.replica held.old.items (B.storage below.old).process)
        result replica.new.replica held.new.items (B.storage below.new).process }
{
    let Prepared {
        sent,
        mut settled,
        number,
    } = prepared;
    let call = Held {
        caller: update.caller,
        call: update.call,
        number: update.number,
        outcome: update.outcome,
    };
    replica.receive(update);
    settle_to(partition, number, replica, below, &mut settled);
    tidy(replica, &settled);
    let answer = answer(replica.applied(), call, held);
    CallStep {
        answer,
        sent,
        settled,
    }
}

/// The answer to the call of an update where the partition is applied up to a number; a call that has to wait
/// is held.
fn answer(applied: u64, call: Held, held: &mut Vec<Held>) -> Answer
    requires { vec_len held.old < vec_capacity held.old }
    ensures told { call.number ≤ applied → (result ≡ says.Reply (reply_from call.outcome))
        × (held.new.items ≡ held.old.items) }
    ensures waits { applied < call.number → (result ≡ says.Ticket call.number)
        × (held.new.items ≡ held.old.items ++ call ∷ []) }
{
    if call.number <= applied {
        return Answer::Reply(reply(call.outcome));
    }
    let number = call.number;
    match held.push(call) {
        Ok(()) => Answer::Ticket(number),
        Err(_) => unreachable!(),
    }
}
