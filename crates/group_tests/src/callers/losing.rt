// Four threads set and get while a data process and a parity process fail: each thread's replies are those of a table,
// the tickets of a partition differ, and each key reads afterwards as its thread left it.
ghost use Rattle.group_stage.specs.Seated.{AreSeatsOf, IsOf};

use crate::callers::own_keys::{CALLS, PARTITIONS, call, is_kept};
use crate::callers::place::Place;
use group_stage::{Seat, Seats, Stage};
use group_types::{ProcessId, Shape};
use memc_table::Table;
use stage_caller::StageCaller;
use std::alloc::Global;
use std::test::Fail;
use std::thread;
use std::thread::Threads;

// The callers of these letters let a process fail before their calls of these numbers.
const LOSES_DATA: (u8, u32) = (b'a', 15);

const LOSES_PARITY: (u8, u32) = (b'c', 29);

// Whether each reply was the table's, and the tickets.
#[derive(Clone, Copy)]
struct Worked {
    good: bool,
    tickets: [u64; CALLS as usize],
}

#[test]
fn each_thread_is_answered_as_by_a_table(rt: HostRuntime) -> Result<(), Fail> {
    let shape = Shape::new(PARTITIONS, 2, 64, 64)?;
    assert!(rt; nothing_is_lost(&rt, rt.alloc(), shape));
    Ok(())
}

fn nothing_is_lost<R: Threads + Sync>(rt: &R, alloc: Global, shape: Shape) -> bool {
    match Stage::new(alloc, shape, 5) {
        Ok((stage, seats)) => all_is_told(rt, alloc, &stage, seats),
        Err(_) => false,
    }
}

// Whether four threads are answered as they should be, and their keys are read from the last seat as they left them.
fn all_is_told<R: Threads + Sync>(rt: &R, alloc: Global, stage: &Stage, seats: Seats) -> bool
    requires { AreSeatsOf stage.now seats.seats }
{
    let mut seats = seats;
    let good = four_work(rt, alloc, stage, &mut seats);
    match seats.take() {
        Some(seat) => good && all_kept(alloc, stage, seat),
        None => false,
    }
}

fn four_work<R: Threads + Sync>(rt: &R, alloc: Global, stage: &Stage, seats: &mut Seats) -> bool
    requires { AreSeatsOf stage.now seats.old.seats }
    ensures { AreSeatsOf stage.now seats.new.seats }
{
    let Some(front) = two_of(stage, seats) else {
        return false;
    };
    let Some(back) = two_of(stage, seats) else {
        return false;
    };
    are_answered(rt, alloc, front, back)
}

fn two_of<'a>(stage: &'a Stage, seats: &mut Seats) -> Option<(Place<'a>, Place<'a>)>
    requires { AreSeatsOf stage.now seats.old.seats }
    ensures { AreSeatsOf stage.now seats.new.seats }
{
    let one = seats.take()?;
    let other = seats.take()?;
    Some((Place::new(stage, one), Place::new(stage, other)))
}

// Whether each reply is the table's, and no two tickets are one.
fn are_answered<R: Threads + Sync>(
    rt: &R,
    alloc: Global,
    front: (Place<'_>, Place<'_>),
    back: (Place<'_>, Place<'_>),
) -> bool {
    let workers = in_four(rt, alloc, front, back);
    are_good(&workers) && differ(alloc, &workers)
}

fn in_four<R: Threads + Sync>(
    rt: &R,
    alloc: Global,
    front: (Place<'_>, Place<'_>),
    back: (Place<'_>, Place<'_>),
) -> [Worked; 4] {
    let ((a, b), (c, d)) = thread::join(
        rt,
        move || -> (Worked, Worked) { in_two(rt, alloc, front, (b'a', b'b')) },
        move || -> (Worked, Worked) { in_two(rt, alloc, back, (b'c', b'd')) },
    );
    [a, b, c, d]
}

fn in_two<R: Threads + Sync>(
    rt: &R,
    alloc: Global,
    places: (Place<'_>, Place<'_>),
    letters: (u8, u8),
) -> (Worked, Worked) {
    let (one, other) = places;
    thread::join(
        rt,
        move || -> Worked { work(alloc, one, letters.0) },
        move || -> Worked { work(alloc, other, letters.1) },
    )
}

fn work(alloc: Global, start: Place<'_>, letter: u8) -> Worked {
    let mut worked = Worked {
        good: true,
        tickets: [0; CALLS as usize],
    };
    let Ok(mut table) = Table::new(alloc, PARTITIONS) else {
        return Worked {
            good: false,
            ..worked
        };
    };
    let mut place = start;
    'calls: for i in 0..CALLS {
        worked.good &= loses(&mut place, letter, i);
        let (next, same, ticket) = call(alloc, place, &mut table, letter, i);
        place = next;
        worked.good &= same;
        worked.tickets[i as usize] = ticket;
    }
    worked
}

// Whether a process failed, where that is due.
fn loses(place: &mut Place<'_>, letter: u8, i: u32) -> bool {
    if (letter, i) == LOSES_DATA {
        return place.fail(ProcessId::DataNode(0));
    }
    if (letter, i) == LOSES_PARITY {
        return place.fail(ProcessId::ParityNode(0));
    }
    true
}

fn are_good(workers: &[Worked; 4]) -> bool {
    workers[0].good && workers[1].good && workers[2].good && workers[3].good
}

// Whether no two tickets are one.
fn differ(alloc: Global, workers: &[Worked; 4]) -> bool {
    let Ok(mut seen) = vec![in alloc; false; 2_048] else {
        return false;
    };
    let mut good = true;
    'workers: for worked in workers {
        good &= are_new(&mut seen, &worked.tickets);
    }
    good
}

// Whether none of the tickets was seen before; now they are.
fn are_new(seen: &mut [bool], tickets: &[u64]) -> bool {
    let mut good = true;
    'tickets: for ticket in tickets {
        if *ticket != 0 {
            good &= is_new(seen, *ticket as usize);
        }
    }
    good
}

fn is_new(seen: &mut [bool], ticket: usize) -> bool {
    match seen.get_mut(ticket) {
        Some(flag) => {
            let before = *flag;
            *flag = true;
            !before
        }
        None => false,
    }
}

fn all_kept(alloc: Global, stage: &Stage, seat: Seat) -> bool
    requires { IsOf stage.now seat }
{
    let mut reader = StageCaller::new(stage, seat, false);
    is_kept(alloc, &mut reader, b'a')
        && is_kept(alloc, &mut reader, b'b')
        && is_kept(alloc, &mut reader, b'c')
        && is_kept(alloc, &mut reader, b'd')
}
