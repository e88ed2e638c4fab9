use front_end::Caller;
use group_types::{Key, Payload};
use memc_proto::CallEnd;
use memc_table::{Act, Op, Reply};
use stage_caller::StageCaller;
use std::alloc::{AllocError, Global};

/// Whether a set of a value on a key is acknowledged.
pub(crate) fn stores(
    alloc: Global,
    caller: &mut StageCaller<'_>,
    key: &[u8],
    value: &[u8],
) -> bool {
    let Some(op) = set(alloc, key, value) else {
        return false;
    };
    let end = caller.call(&op);
    drop(op);
    is_stored(&end)
}

/// Whether a call ended as stored.
pub(crate) fn is_stored(end: &Result<CallEnd, AllocError>) -> bool {
    matches!(end, Ok(CallEnd::Reply(Reply::Stored)))
}

/// Whether a get of a key finds this value.
pub(crate) fn reads(alloc: Global, caller: &mut StageCaller<'_>, key: &[u8], value: &[u8]) -> bool {
    let Some(op) = get(alloc, key) else {
        return false;
    };
    let end = caller.call(&op);
    drop(op);
    is_found(&end, value)
}

fn is_found(end: &Result<CallEnd, AllocError>, value: &[u8]) -> bool {
    match end {
        Ok(CallEnd::Reply(Reply::Value(item))) => item.value.bytes() == value,
        _ => false,
    }
}

pub(crate) fn set(alloc: Global, key: &[u8], value: &[u8]) -> Option<Op> {
    let act = Act::Set {
        key: Key::read(alloc, key).ok()?,
        flags: 0,
        expiry: 0,
        value: Payload::of(alloc, value).ok()?,
    };
    Some(Op::new(0, act))
}

fn get(alloc: Global, key: &[u8]) -> Option<Op> {
    let key = Key::read(alloc, key).ok()?;
    Some(Op::new(0, Act::Get { key }))
}
