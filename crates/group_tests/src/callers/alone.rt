// One caller, which sets and gets while processes fail.
use crate::callers::acts::{reads, stores};
use front_end::Caller;
use group_stage::Stage;
use group_types::{ProcessId, Shape};
use memc_proto::FailEnd;
use stage_caller::StageCaller;
use std::alloc::Global;
use std::test::Fail;

#[test]
fn one_caller_reads_what_it_sets(rt: HostRuntime) -> Result<(), Fail> {
    assert!(rt; reads_back(rt.alloc())?);
    Ok(())
}

#[test]
fn orders_are_judged(rt: HostRuntime) -> Result<(), Fail> {
    assert!(rt; judges(rt.alloc())?);
    Ok(())
}

// Whether what was set is read, before two data processes fail and after it.
fn reads_back(alloc: Global) -> Result<bool, Fail> {
    let (stage, mut seats) = Stage::new(alloc, Shape::new(4, 2, 64, 64)?, 1)?;
    let Some(seat) = seats.take() else {
        return Ok(false);
    };
    let mut caller = StageCaller::new(&stage, seat, true);
    Ok(
        sets_and_gets(alloc, &mut caller, b"first".as_slice())
            && ends(&mut caller, ProcessId::DataNode(0), FailEnd::Made)
            && gets(alloc, &mut caller, b"first".as_slice())
            && sets_and_gets(alloc, &mut caller, b"second".as_slice())
            && ends(&mut caller, ProcessId::DataNode(1), FailEnd::Made)
            && gets(alloc, &mut caller, b"second".as_slice())
            && sets_and_gets(alloc, &mut caller, b"third".as_slice()),
    )
}

// Whether an order ends as it should: where none is taken, of no process, and of a dead one.
fn judges(alloc: Global) -> Result<bool, Fail> {
    let (stage, mut seats) = Stage::new(alloc, Shape::new(2, 1, 4, 16)?, 2)?;
    let Some(one) = seats.take() else {
        return Ok(false);
    };
    let Some(other) = seats.take() else {
        return Ok(false);
    };
    let mut off = StageCaller::new(&stage, one, false);
    if !ends(&mut off, ProcessId::DataNode(0), FailEnd::Off) {
        return Ok(false);
    }
    let mut on = StageCaller::new(&stage, other, true);
    Ok(
        ends(&mut on, ProcessId::DataNode(2), FailEnd::NoProcess)
            && ends(&mut on, ProcessId::ParityNode(1), FailEnd::NoProcess)
            && ends(&mut on, ProcessId::ParityNode(0), FailEnd::Made)
            && ends(&mut on, ProcessId::ParityNode(0), FailEnd::AlreadyDead),
    )
}

// Whether an order that a process fail ends so.
fn ends(caller: &mut StageCaller<'_>, at: ProcessId, wanted: FailEnd) -> bool {
    match caller.fail(at, 0) {
        Ok(end) => end == wanted,
        Err(_) => false,
    }
}

// Whether each key is set to the value, and read.
fn sets_and_gets(alloc: Global, caller: &mut StageCaller<'_>, value: &[u8]) -> bool {
    let mut good = true;
    for letter in b'a'..b'e' {
        good &= stores(alloc, caller, [letter].as_slice(), value);
    }
    good && gets(alloc, caller, value)
}

// Whether each key has the value.
fn gets(alloc: Global, caller: &mut StageCaller<'_>, value: &[u8]) -> bool {
    let mut good = true;
    for letter in b'a'..b'e' {
        good &= reads(alloc, caller, [letter].as_slice(), value);
    }
    good
}
