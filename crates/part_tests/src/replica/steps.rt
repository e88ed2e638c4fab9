// Updates of one caller, received and adopted.
ghost use Rattle.std.specs.Prelude.{◌≡◌, ℕ, ◌+◌, ◌≤◌, [], ◌∷◌, Some, IfSome};
ghost use Rattle.group_types.specs.Dimensions.{space_of};
ghost use Rattle.run_alloc.specs.Free.{AllFree};
ghost use Rattle.group_run.specs.Free.{is_free};
ghost use Rattle.group_run.specs.Replica.{empty_replica, run_of, slot_in, with_log};
ghost use Rattle.group_run.specs.Replica.{freed_by};
ghost use Rattle.group_run.specs.Fitting.{Writes};

use crate::fixtures::shape;
use group_message::{Body, Outcome, Update, UpdateList};
use group_types::{Key, Payload, Run};
use partition_replica::Replica;
use std::alloc::Global;
use std::process::Abort;

// What is done to the item.
#[derive(Clone, Copy)]
pub(super) enum Step {
    Put(u32),
    Touch(u64),
    Delete,
}

pub(super) fn empty(rt: &impl Abort, alloc: Global) -> Replica
    ensures space { space_of result.shape ≡ 16 }
    ensures replica { result.replica ≡ empty_replica }
{
    let shape = shape(rt, 1, 0, 1);
    Replica::new(alloc, shape).expect(rt, "a replica")
}

// The body and the outcome of a step. A value gets the place of its length.
fn body(rt: &impl Abort, alloc: Global, replica: &Replica, step: Step) -> (Body, Outcome)
    ensures writes { Writes (space_of replica.now.shape) result.0 }
    ensures free { IfSome (run_of result.0)
        (λ run. AllFree (is_free (space_of replica.now.shape) replica.now.replica) run.at run.len) }
{
    match step {
        Step::Put(len) => {
            let run = replica.place(len).expect(rt, "a place");
            (put(rt, alloc, run), Outcome::Stored)
        }
        Step::Touch(until) => (Body::Touch { until: Some(until) }, Outcome::Touched),
        Step::Delete => (Body::Remove, Outcome::Deleted),
    }
}

fn put(rt: &impl Abort, alloc: Global, run: Run) -> Body
    ensures run { run_of result ≡ Some run }
    ensures writes { (space : ℕ) → run.at + run.len ≤ space → Writes space result }
{
    let bytes = vec![in alloc; 7u8; run.len as usize].expect(rt, "bytes");
    let delta = Payload::from_vec(bytes).expect(rt, "a payload");
    Body::Put {
        flags: 5,
        until: None,
        run,
        delta,
    }
}

// Reserves and receives the update of a step. The log has to be empty.
pub(super) fn receive(
    rt: &impl Abort,
    alloc: Global,
    replica: &mut Replica,
    key: &Key,
    call: u64,
    step: Step,
) -> Outcome
    ensures shape { replica.new.shape ≡ replica.old.shape }
    ensures settled { with_log [] replica.new.replica ≡ with_log [] replica.old.replica }
{
    let (body, outcome) = body(rt, alloc, replica, step);
    receive_next(rt, replica, key, call, body, outcome);
    outcome
}

fn receive_next(
    rt: &impl Abort,
    replica: &mut Replica,
    key: &Key,
    call: u64,
    body: Body,
    outcome: Outcome,
)
    requires writes { Writes (space_of replica.old.shape) body }
    requires free { IfSome (run_of body) (λ run. AllFree (is_free (space_of replica.old.shape) replica.old.replica) run.at run.len) }
    ensures shape { replica.new.shape ≡ replica.old.shape }
    ensures settled { with_log [] replica.new.replica ≡ with_log [] replica.old.replica }
{
    let last = replica.last();
    assert!(rt; last == replica.applied() && last < u64::MAX);
    let update = Update {
        number: last + 1,
        caller: 3,
        call,
        key: key.clone().expect(rt, "a key"),
        frees: freed(replica, key, &body),
        body,
        outcome,
    };
    replica.reserve(&update).expect(rt, "room");
    replica.receive(update);
}

// A replica that received an update on the one key, and adopted one on the other.
pub(super) fn adopted(rt: &impl Abort, alloc: Global, one: &Key, other: &Key) -> Replica {
    let mut replica = empty(rt, alloc);
    receive(rt, alloc, &mut replica, one, 41, Step::Put(6));
    adopt(rt, alloc, &mut replica, other);
    replica
}

// The run that an update frees where the log is empty.
fn freed(replica: &Replica, key: &Key, body: &Body) -> Option<Run>
    ensures { result ≡ freed_by body.now (slot_in replica.now.replica.items key.now) }
{
    match (body, replica.item(key)) {
        (Body::Put { .. } | Body::Remove, Some(slot)) => Some(Run {
            at: slot.at,
            len: slot.len,
        }),
        _ => None,
    }
}

// Adopts a put of 6 bytes at 0 as the first update, where nothing is settled.
fn adopt(rt: &impl Abort, alloc: Global, replica: &mut Replica, key: &Key)
    requires space { space_of replica.old.shape ≡ 16 }
    requires start { with_log [] replica.old.replica ≡ empty_replica }
{
    let update = Update {
        number: 1,
        caller: 3,
        call: 43,
        key: key.clone().expect(rt, "a key"),
        body: put(rt, alloc, Run { at: 0, len: 6 }),
        frees: None,
        outcome: Outcome::Stored,
    };
    let list = list_of(rt, alloc, update);
    replica.reserve_list(&list).expect(rt, "room");
    replica.adopt(0, list);
}

fn list_of(rt: &impl Abort, alloc: Global, update: Update) -> UpdateList
    ensures { result ≡ update ∷ [] }
{
    UpdateList::from(vec![in alloc; update].expect(rt, "a list"))
}
