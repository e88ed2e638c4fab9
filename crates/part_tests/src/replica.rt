// Updates that a replica receives, settles and adopts.
use crate::fixtures::{key, same};
use group_message::Kept;
use group_types::{Key, Run};
use item_index::Slot;
use partition_replica::Replica;
use std::alloc::Global;
use std::process::Abort;
use steps::{Step, adopted, empty, receive};

mod coming;
mod steps;

// A step, with the longest place while its update waits, and what is there once it is settled.
#[derive(Clone, Copy)]
struct Expected {
    number: u64,
    call: u64,
    step: Step,
    waiting: Run,
    item: Option<Slot>,
    settled: Run,
}

#[test]
fn settles_each_kind_of_update(rt: HostRuntime) {
    let mut replica = empty(&rt, rt.alloc());
    let key = key(&rt, rt.alloc(), b"a");
    for row in rows() {
        settles(&rt, rt.alloc(), &mut replica, &key, row);
    }
}

#[test]
fn adopts_another_update_on_the_same_addresses(rt: HostRuntime) {
    let a = key(&rt, rt.alloc(), b"a");
    let b = key(&rt, rt.alloc(), b"b");
    let mut replica = adopted(&rt, rt.alloc(), &a, &b);
    shows_adopted(&rt, &mut replica, &a, &b);
}

fn shows_adopted(rt: &impl Abort, replica: &mut Replica, a: &Key, b: &Key) {
    let rest = run(6, 10);
    let waiting = replica.waiting().expect(rt, "a list").updates().len();
    same(rt, (waiting, replica.last()), (1, 1));
    shows(rt, replica, a, 41, (None, None, false), rest);
    shows(rt, replica, b, 43, (None, Some(1), true), rest);
    replica.settle_next();
    let item = Some(slot(0, 6, 1, None));
    shows(rt, replica, a, 41, (None, None, false), rest);
    shows(rt, replica, b, 43, (item, None, false), rest);
}

fn rows() -> [Expected; 5] {
    [
        row(
            1,
            41,
            Step::Put(6),
            run(6, 10),
            Some(slot(0, 6, 1, None)),
            run(6, 10),
        ),
        row(
            2,
            43,
            Step::Put(4),
            run(10, 6),
            Some(slot(6, 4, 2, None)),
            run(0, 6),
        ),
        row(
            3,
            45,
            Step::Touch(9),
            run(0, 6),
            Some(slot(6, 4, 2, Some(9))),
            run(0, 6),
        ),
        row(4, 47, Step::Delete, run(0, 6), None, run(0, 16)),
        row(
            5,
            49,
            Step::Put(0),
            run(0, 16),
            Some(slot(0, 0, 5, None)),
            run(0, 16),
        ),
    ]
}

fn row(
    number: u64,
    call: u64,
    step: Step,
    waiting: Run,
    item: Option<Slot>,
    settled: Run,
) -> Expected {
    Expected {
        number,
        call,
        step,
        waiting,
        item,
        settled,
    }
}

fn run(at: u32, len: u32) -> Run {
    Run { at, len }
}

fn slot(at: u32, len: u32, cas: u64, until: Option<u64>) -> Slot {
    Slot {
        at,
        len,
        flags: 5,
        cas,
        until,
    }
}

fn settles(rt: &impl Abort, alloc: Global, replica: &mut Replica, key: &Key, row: Expected) {
    let before = replica.item(key);
    let outcome = receive(rt, alloc, replica, key, row.call, row.step);
    let waiting = (before, Some(row.number), true);
    shows(rt, replica, key, row.call, waiting, row.waiting);
    replica.settle_next();
    replica.tidy(key);
    let settled = (row.item, None, false);
    shows(rt, replica, key, row.call, settled, row.settled);
    let kept = Kept {
        call: row.call,
        outcome,
    };
    same(rt, replica.kept(3), Some(kept));
}

// The settled item, the number of the waiting update, and whether the call's update waits; and the
// longest place that a value would get.
fn shows(
    rt: &impl Abort,
    replica: &Replica,
    key: &Key,
    call: u64,
    wanted: (Option<Slot>, Option<u64>, bool),
    run: Run,
) {
    let item = replica.item(key);
    let found = (item, replica.unfinished(key), replica.waits(3, call));
    same(rt, found, wanted);
    same(rt, longest(replica), Some(run));
}

fn longest(replica: &Replica) -> Option<Run> {
    for len in (1..=16u32).rev() {
        if let Some(run) = replica.place(len) {
            return Some(run);
        }
    }
    None
}
