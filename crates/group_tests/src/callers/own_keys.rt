// What one thread does on keys that no other writes, and what a table makes of it.
use crate::callers::place::{Place, is_ended};
use front_end::Caller;
use group_types::{Key, Payload, home};
use memc_table::{Act, Op, Reply, Table};
use stage_caller::StageCaller;
use std::alloc::Global;

/// The calls of a thread, and its keys.
pub(crate) const CALLS: u32 = 48;

const KEYS: u32 = 4;

/// The partitions of the group.
pub(crate) const PARTITIONS: u32 = 2;

// The call of this number on the keys of a letter: each key is set, appended to, added once it is there, and read.
fn op_of(alloc: Global, letter: u8, i: u32) -> Option<Op> {
    let key = Key::read(
        alloc,
        [letter, b'0'.wrapping_add((i % KEYS) as u8)].as_slice(),
    )
    .ok()?;
    let value = Payload::of(alloc, [letter, (i % 256) as u8].as_slice()).ok()?;
    Some(Op::new(0, act_of(i / KEYS, key, value)))
}

fn act_of(round: u32, key: Key, value: Payload) -> Act {
    match round % 6 {
        0 => Act::Set {
            key,
            flags: 7,
            expiry: 0,
            value,
        },
        2 => Act::Append { key, value },
        4 => Act::Add {
            key,
            flags: 8,
            expiry: 0,
            value,
        },
        _ => Act::Get { key },
    }
}

fn get_of(alloc: Global, letter: u8, number: u32) -> Option<Op> {
    let key = Key::read(
        alloc,
        [letter, b'0'.wrapping_add((number % KEYS) as u8)].as_slice(),
    )
    .ok()?;
    Some(Op::new(0, Act::Get { key }))
}

// What the table replies to it.
fn applied(table: &mut Table, op: &Op) -> Option<Reply> {
    if table.count(op.act().key()) < 1_000 {
        table.apply(op).ok()
    } else {
        None
    }
}

/// Whether it is that reply, cas aside.
pub(crate) fn is_same(reply: &Reply, wanted: &Option<Reply>) -> bool {
    match wanted {
        Some(wanted) => are_same(reply, wanted),
        None => false,
    }
}

fn are_same(reply: &Reply, wanted: &Reply) -> bool {
    match (reply, wanted) {
        (Reply::Value(found), Reply::Value(item)) => {
            found.flags == item.flags && found.value.bytes() == item.value.bytes()
        }
        _ => reply == wanted,
    }
}

/// One call to its end: whether its reply is the table's; and its ticket, by the number and the partition, or 0.
pub(crate) fn call<'a>(
    alloc: Global,
    place: Place<'a>,
    table: &mut Table,
    letter: u8,
    i: u32,
) -> (Place<'a>, bool, u64) {
    match op_of(alloc, letter, i) {
        Some(op) => {
            let called = call_with(place, table, &op);
            drop(op);
            called
        }
        None => (place, false, 0),
    }
}

fn call_with<'a>(place: Place<'a>, table: &mut Table, op: &Op) -> (Place<'a>, bool, u64) {
    let wanted = applied(table, op);
    let (place, same, number) = place.call(op, &wanted);
    (place, same, ticket_of(number, op))
}

// Tickets of both partitions as one number.
fn ticket_of(number: u64, op: &Op) -> u64 {
    if number == 0 || 1_000 < number {
        return 0;
    }
    number * u64::from(PARTITIONS) + u64::from(home(op.act().key(), PARTITIONS).0)
}

/// Whether each key of the letter reads as the table says after the letter's calls.
pub(crate) fn is_kept(alloc: Global, reader: &mut StageCaller<'_>, letter: u8) -> bool {
    let Ok(mut table) = Table::new(alloc, PARTITIONS) else {
        return false;
    };
    let mut kept = replayed(alloc, &mut table, letter);
    'keys: for number in 0..KEYS {
        kept &= reads(alloc, reader, &mut table, letter, number);
    }
    kept
}

fn replayed(alloc: Global, table: &mut Table, letter: u8) -> bool {
    let mut good = true;
    'calls: for i in 0..CALLS {
        good &= replays(alloc, table, letter, i);
    }
    good
}

fn replays(alloc: Global, table: &mut Table, letter: u8, i: u32) -> bool {
    match op_of(alloc, letter, i) {
        Some(op) => {
            let good = applied(table, &op).is_some();
            drop(op);
            good
        }
        None => false,
    }
}

fn reads(
    alloc: Global,
    reader: &mut StageCaller<'_>,
    table: &mut Table,
    letter: u8,
    number: u32,
) -> bool {
    match get_of(alloc, letter, number) {
        Some(get) => {
            let good = reads_with(reader, table, &get);
            drop(get);
            good
        }
        None => false,
    }
}

fn reads_with(reader: &mut StageCaller<'_>, table: &mut Table, get: &Op) -> bool {
    let wanted = applied(table, get);
    is_ended(&reader.call(get), &wanted)
}
