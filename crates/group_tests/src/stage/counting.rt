// Two threads ask, and count what they are answered.
ghost use Rattle.std.specs.Prelude.{◌≡◌, ◌<◌, length};
ghost use Rattle.group_types.specs.Names.{IsProcess};
ghost use Rattle.group_stage.specs.Seated.{AreSeatsOf, IsOf, callers_of, shape_of};

use crate::stage::calls::{get, set};
use group_stage::{Seat, Seats, Stage, StageAnswer};
use group_types::{ProcessId, Shape};
use memc_table::Op;
use std::alloc::Global;
use std::process::Abort;
use std::test::Fail;
use std::thread;
use std::thread::Threads;

const FIRST: ProcessId = ProcessId::DataNode(0);

const CALLS: u32 = 1_000;

// A seat after its calls, with how many were made, met a held word, and ended otherwise.
#[derive(Drop)]
struct Counted {
    seat: Seat,
    made: u64,
    busy: u64,
    other: u64,
}

// The same call, so many times.
fn ask_often(stage: &Stage, own: Seat, op: &Op, at: ProcessId) -> Counted
    requires seat { IsOf stage.now own }
    requires process { IsProcess (shape_of stage.now) at }
    ensures { IsOf stage.now result.seat }
{
    let mut seat = own;
    let mut made = 0u64;
    let mut busy = 0u64;
    let mut other = 0u64;
    'calls: for _ in 0..CALLS {
        match stage.try_ask(&mut seat, op, at) {
            Ok(StageAnswer::Made(_)) => made = made.wrapping_add(1),
            Ok(StageAnswer::Busy(_)) => busy = busy.wrapping_add(1),
            _ => other = other.wrapping_add(1),
        }
    }
    Counted {
        seat,
        made,
        busy,
        other,
    }
}

// Two threads, each with a seat of its own.
fn ask_in_two<R: Threads + Sync>(
    rt: &R,
    stage: &Stage,
    seats: (Seat, Seat),
    ops: (&Op, &Op),
    at: ProcessId,
) -> (Counted, Counted)
    requires first { IsOf stage.now seats.0 }
    requires second { IsOf stage.now seats.1 }
    requires process { IsProcess (shape_of stage.now) at }
    ensures first { IsOf stage.now result.0.seat }
    ensures second { IsOf stage.now result.1.seat }
{
    let (one, two) = seats;
    let (first, second) = ops;
    thread::join(
        rt,
        move || -> Counted
            requires { IsOf stage.now one × IsProcess (shape_of stage.now) at }
            ensures { IsOf stage.entry.now result.seat }
        { ask_often(stage, one, first, at) },
        move || -> Counted
            requires { IsOf stage.now two × IsProcess (shape_of stage.now) at }
            ensures { IsOf stage.entry.now result.seat }
        { ask_often(stage, two, second, at) },
    )
}

#[test]
fn two_threads_count_as_their_seats_do(rt: HostRuntime) -> Result<(), Fail> {
    let shape = Shape::new(1, 0, 4, 16)?;
    assert!(rt; counts_agree(&rt, rt.alloc(), shape));
    Ok(())
}

// Whether each seat has asked as often as its thread counted, and the stage can be closed.
fn counts_agree<R: Threads + Abort + Sync>(rt: &R, alloc: Global, shape: Shape) -> bool
    requires { 0 < shape.k }
{
    let set = set(rt, alloc, b'b');
    let get = get(rt, alloc);
    let agree = made_and_asked(rt, alloc, shape, (&set, &get));
    drop((set, get));
    agree
}

fn made_and_asked<R: Threads + Sync>(rt: &R, alloc: Global, shape: Shape, ops: (&Op, &Op)) -> bool
    requires { 0 < shape.k }
{
    match Stage::new(alloc, shape, 2) {
        Ok((stage, seats)) => asked_by_two(rt, stage, seats, ops),
        Err(_) => false,
    }
}

fn asked_by_two<R: Threads + Sync>(rt: &R, stage: Stage, all: Seats, ops: (&Op, &Op)) -> bool
    requires seats { AreSeatsOf stage all.seats }
    requires many { length all.seats ≡ callers_of stage }
    requires made { length all.seats ≡ all.made }
    requires process { 0 < (shape_of stage).k }
{
    let mut seats = all;
    let Some(one) = seats.take() else {
        return false;
    };
    let Some(two) = seats.take() else {
        return false;
    };
    let (first, second) = ask_in_two(rt, &stage, (two, one), ops, FIRST);
    let agree = is_counted(&first) && is_counted(&second);
    seats.put(first.seat);
    seats.put(second.seat);
    agree && stage.close(seats).is_ok()
}

fn is_counted(counted: &Counted) -> bool {
    counted.seat.asks() == counted.made
        && counted.made.wrapping_add(counted.busy) == u64::from(CALLS)
        && counted.other == 0
}
