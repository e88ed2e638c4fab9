// Whom a caller asks first: behind a loss the process that answered last.
use crate::callers::acts::{reads, stores};
use front_end::Caller;
use group_stage::{Seat, Stage};
use group_types::{ProcessId, Shape};
use memc_proto::FailEnd;
use stage_caller::StageCaller;
use std::alloc::Global;
use std::test::Fail;

/// The processes that are lost, one after another: each headed the partition when it is.
const LOST: [ProcessId; 2] = [ProcessId::DataNode(0), ProcessId::ParityNode(0)];

#[test]
fn the_process_that_answered_is_asked_first(rt: HostRuntime) -> Result<(), Fail> {
    let few = asks(rt.alloc(), 2)?;
    let many = asks(rt.alloc(), 12)?;
    // Ten turns more behind each of two losses, each a set and a get, and an ask for each.
    assert_eq!(rt; many, few.wrapping_add(40));
    Ok(())
}

// How often a caller asks that has so many turns behind each loss.
fn asks(alloc: Global, turns: u32) -> Result<u64, Fail> {
    let (stage, mut seats) = Stage::new(alloc, Shape::new(1, 2, 64, 64)?, 1)?;
    let Some(seat) = seats.take() else {
        return Ok(0);
    };
    let mut caller = StageCaller::new(&stage, seat, true);
    let mut good = true;
    'losses: for at in LOST {
        good &= matches!(caller.fail(at, 0), Ok(FailEnd::Made));
        good &= sets_and_gets(alloc, &mut caller, turns);
    }
    let seat: Seat = caller.into_seat();
    Ok(if good { seat.asks() } else { 0 })
}

fn sets_and_gets(alloc: Global, caller: &mut StageCaller<'_>, turns: u32) -> bool {
    let mut good = true;
    for _ in 0..turns {
        good &= stores(alloc, caller, b"a".as_slice(), b"A".as_slice());
        good &= reads(alloc, caller, b"a".as_slice(), b"A".as_slice());
    }
    good
}
