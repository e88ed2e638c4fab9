// The calls of the tests, all on one key.
use group_types::{Key, Payload};
use memc_table::{Act, Op};
use std::alloc::Global;
use std::process::Abort;

/// Sets the key to one byte.
pub(crate) fn set(rt: &impl Abort, alloc: Global, byte: u8) -> Op {
    Op::new(0, stored(key(rt, alloc), value(rt, alloc, byte)))
}

/// Gets the key.
pub(crate) fn get(rt: &impl Abort, alloc: Global) -> Op {
    Op::new(0, found(key(rt, alloc)))
}

fn found(key: Key) -> Act {
    Act::Get { key }
}

fn stored(key: Key, value: Payload) -> Act {
    Act::Set {
        key,
        flags: 0,
        expiry: 0,
        value,
    }
}

fn key(rt: &impl Abort, alloc: Global) -> Key {
    Key::read(alloc, b"a".as_slice()).expect(rt, "it is a key")
}

fn value(rt: &impl Abort, alloc: Global, byte: u8) -> Payload {
    Payload::of(alloc, [byte].as_slice()).expect(rt, "there is memory")
}
