// Which updates and lists a replica lets come.
use super::run;
use super::steps::{Step, empty, receive};
use crate::fixtures::{key, same};
use group_message::{Body, Outcome, Update, UpdateList};
use group_types::{Key, Payload, Run};
use partition_replica::Replica;
use std::alloc::Global;
use std::process::Abort;

// An update that puts bytes on the key b.
#[derive(Clone, Copy)]
struct Put {
    number: u64,
    caller: u32,
    run: Run,
    bytes: usize,
    frees: Option<Run>,
}

#[test]
fn tells_which_update_may_follow(rt: HostRuntime) {
    let replica = waiting(&rt, rt.alloc());
    for (put, stable, may) in updates() {
        let update = update_of(&rt, rt.alloc(), put);
        same(&rt, replica.may_follow(&update, stable), may);
    }
}

#[test]
fn tells_which_list_may_come(rt: HostRuntime) {
    let replica = waiting(&rt, rt.alloc());
    for (base, one, other, may) in lists() {
        let list = list_of(&rt, rt.alloc(), one, other);
        same(&rt, replica.may_adopt(base, &list), may);
    }
}

#[test]
fn lets_no_update_come_in_a_full_window(rt: HostRuntime) {
    let key = key(&rt, rt.alloc(), b"a");
    let mut replica = empty(&rt, rt.alloc());
    for _ in 0..256u32 {
        touch(&rt, &mut replica, &key);
    }
    let update = update_of(&rt, rt.alloc(), put_at(257, run(0, 4), None));
    same(&rt, replica.may_follow(&update, 0), false);
    same(&rt, replica.may_follow(&update, 1), true);
}

// A replica with an item on the key a at 0 to 6, and an update that puts another at 6 to 10 in its place.
fn waiting(rt: &impl Abort, alloc: Global) -> Replica {
    let key = key(rt, alloc, b"a");
    let mut replica = empty(rt, alloc);
    receive(rt, alloc, &mut replica, &key, 41, Step::Put(6));
    replica.settle_next();
    receive(rt, alloc, &mut replica, &key, 43, Step::Put(4));
    replica
}

// Each update with what is stable, and whether it may follow: the ninth meets an item, the tenth an update that waits.
fn updates() -> [(Put, u64, bool); 13] {
    let fits = put_at(3, run(10, 6), None);
    [
        (fits, 1, true),
        (fits, 0, true),
        (fits, 2, true),
        (fits, 3, false),
        (Put { number: 4, ..fits }, 1, false),
        (Put { number: 2, ..fits }, 1, false),
        (
            Put {
                caller: 256,
                ..fits
            },
            1,
            false,
        ),
        (Put { bytes: 5, ..fits }, 1, false),
        (put_at(3, run(5, 1), None), 1, false),
        (put_at(3, run(9, 2), None), 1, false),
        (put_at(3, run(11, 6), None), 1, false),
        (put_at(3, run(0, 6), None), 2, true),
        (put_at(3, run(10, 6), Some(run(6, 4))), 1, false),
    ]
}

// Each list of two updates with its base, and whether it may come.
fn lists() -> [(u64, Put, Put, bool); 9] {
    let two = put_at(2, run(10, 3), None);
    let three = put_at(3, run(13, 3), Some(run(10, 3)));
    [
        (1, two, three, true),
        (2, two, three, false),
        (3, two, three, false),
        (1, two, Put { number: 4, ..three }, false),
        (
            1,
            two,
            Put {
                run: run(12, 3),
                ..three
            },
            false,
        ),
        (
            1,
            two,
            Put {
                frees: None,
                ..three
            },
            false,
        ),
        (
            1,
            two,
            Put {
                run: run(6, 3),
                ..three
            },
            true,
        ),
        (
            1,
            two,
            Put {
                run: run(5, 3),
                ..three
            },
            false,
        ),
        (
            2,
            put_at(3, run(0, 6), None),
            put_at(4, run(10, 3), Some(run(0, 6))),
            true,
        ),
    ]
}

fn put_at(number: u64, run: Run, frees: Option<Run>) -> Put {
    Put {
        number,
        caller: 3,
        run,
        bytes: run.len as usize,
        frees,
    }
}

fn update_of(rt: &impl Abort, alloc: Global, put: Put) -> Update {
    let bytes = vec![in alloc; 7u8; put.bytes].expect(rt, "bytes");
    Update {
        number: put.number,
        caller: put.caller,
        call: 45,
        key: key(rt, alloc, b"b"),
        body: Body::Put {
            flags: 5,
            until: None,
            run: put.run,
            delta: Payload::from_vec(bytes).expect(rt, "a payload"),
        },
        frees: put.frees,
        outcome: Outcome::Stored,
    }
}

fn list_of(rt: &impl Abort, alloc: Global, one: Put, other: Put) -> UpdateList {
    let updates = vec![in alloc; update_of(rt, alloc, one), update_of(rt, alloc, other)];
    UpdateList::from(updates.expect(rt, "a list"))
}

// Receives an update that changes no run.
fn touch(rt: &impl Abort, replica: &mut Replica, key: &Key) {
    let last = replica.last();
    assert!(rt; last < u64::MAX);
    let update = Update {
        number: last + 1,
        caller: 3,
        call: 41,
        key: key.clone().expect(rt, "a key"),
        body: Body::Touch { until: None },
        frees: None,
        outcome: Outcome::Touched,
    };
    replica.reserve(&update).expect(rt, "room");
    replica.receive(update);
}
