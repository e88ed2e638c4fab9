// Many clients of one worker over connections in memory: none is starved, none hears what is another's, and one that
// takes nothing is read no further.
use crate::bench::{MemoryWorker, admit, hears, rounds, tells, worker};
use crate::shop::Till;
use crate::wires::Change::{Cuts, Ends, Says, Takes};
use crate::wires::{Change, Nobody, Teller, Wires};
use edge_io::{Clock, FixedClock};
use front_end::AtOnce;
use memc_table::Table;
use ready_worker::{Inbox, Overlap, Station, Worker};
use std::alloc::{AllocError, Global};
use std::process::Abort;
use std::sync::atomic::{AtomicU64, Ordering};
use std::sync::{Mutex, Wait};

const ALL: Change<'static> = Takes(1 << 30);

const ASKS: &[u8] = b"version\r\n";

const VERSION: &[u8] = b"VERSION cocytus-1\r\n";

/// This text so many times.
fn many(alloc: Global, text: &[u8], count: usize) -> Result<Vec<u8>, AllocError> {
    let mut all = Vec::new(alloc);
    for _ in 0..count {
        all.extend_from_slice(text)?;
    }
    Ok(all)
}

// One asks more than a turn answers in each round, and 20 others ask once in each.
#[test]
fn nobody_starves_beside_one_that_asks_without_end(rt: HostRuntime) {
    let alloc = rt.alloc();
    let table = Mutex::new(Table::new(alloc, 1).expect(&rt, "a table"));
    let wires = Wires::new(alloc, 21).expect(&rt, "connections");
    let clock = FixedClock::new(0);
    let mut worker = worker(&rt, alloc, &wires, &table, &clock);
    for number in 0..21 {
        admit(&rt, &mut worker, &wires, number);
        tells(&rt, &wires, number, ALL);
    }
    let asks = many(alloc, ASKS, 200).expect(&rt, "requests");
    for _ in 0..100 {
        for number in 1..21 {
            tells(&rt, &wires, number, Says(ASKS));
        }
        tells(&rt, &wires, 0, Says(&asks));
        rounds(&mut worker, 1);
    }
    let heard = many(alloc, VERSION, 100).expect(&rt, "answers");
    for number in 1..21 {
        hears(&rt, alloc, &wires, number, &heard);
    }
}

// One has more to do than a turn answers, and 20 others are told of in each round.
#[test]
fn one_with_more_to_do_comes_on_beside_those_that_are_ready(rt: HostRuntime) {
    let alloc = rt.alloc();
    let table = Mutex::new(Table::new(alloc, 1).expect(&rt, "a table"));
    let wires = Wires::new(alloc, 21).expect(&rt, "connections");
    let clock = FixedClock::new(0);
    let mut worker = worker(&rt, alloc, &wires, &table, &clock);
    for number in 0..21 {
        admit(&rt, &mut worker, &wires, number);
        tells(&rt, &wires, number, ALL);
    }
    let asks = many(alloc, ASKS, 3_000).expect(&rt, "requests");
    tells(&rt, &wires, 0, Says(&asks));
    for _ in 0..200 {
        for number in 1..21 {
            tells(&rt, &wires, number, Says(ASKS));
        }
        rounds(&mut worker, 1);
    }
    let all = many(alloc, VERSION, 3_000).expect(&rt, "answers");
    hears(&rt, alloc, &wires, 0, &all);
}

/// A worker whose one connection said this, of which nothing can be written.
fn said<'t, R: Wait + Abort + Copy>(
    rt: &R,
    alloc: Global,
    wires: &'t Wires,
    table: &'t Mutex<Table>,
    clock: &'t FixedClock,
    bytes: &[u8],
) -> MemoryWorker<'t, R, FixedClock> {
    let mut worker = worker(rt, alloc, wires, table, clock);
    admit(rt, &mut worker, wires, 0);
    tells(rt, wires, 0, Says(bytes));
    worker
}

// One asks 20,000 times at once and takes nothing: at most 64 KiB of it are read, until it takes.
#[test]
fn one_that_takes_nothing_is_read_no_further(rt: HostRuntime) {
    let alloc = rt.alloc();
    let asks = many(alloc, ASKS, 20_000).expect(&rt, "requests");
    let heard = many(alloc, VERSION, 20_000).expect(&rt, "answers");
    let table = Mutex::new(Table::new(alloc, 1).expect(&rt, "a table"));
    let wires = Wires::new(alloc, 1).expect(&rt, "a connection");
    let clock = FixedClock::new(0);
    let mut worker = said(&rt, alloc, &wires, &table, &clock, &asks);
    rounds(&mut worker, 700);
    let read = wires.read(0);
    assert!(rt; read <= 65_536, "{read} bytes were read");
    tells(&rt, &wires, 0, ALL);
    rounds(&mut worker, 700);
    hears(&rt, alloc, &wires, 0, &heard);
}

// Each stores a value of its own under a key of its own and reads it back, a byte or some at a time.
#[test]
fn a_thousand_are_served_until_all_are_over(rt: HostRuntime) {
    let alloc = rt.alloc();
    let table = Mutex::new(Table::new(alloc, 1).expect(&rt, "a table"));
    let wires = Wires::new(alloc, 1_000).expect(&rt, "connections");
    let clock = FixedClock::new(0);
    let inbox = Inbox::new(alloc, Nobody);
    for number in 0..1_000 {
        let says = format!(in alloc;
            "set k{number} {number} 0 4\r\n{number:04}\r\nget k{number} none\r\nquit\r\n"
        ).expect(&rt, "a text");
        wires.change(number, ALL).expect(&rt, "memory");
        wires
            .change(number, Cuts(1 + number % 7))
            .expect(&rt, "memory");
        wires
            .change(number, Says(says.as_bytes()))
            .expect(&rt, "memory");
        inbox.hand(&rt, wires.stream(number));
    }
    inbox.end();
    let station = Station::new(alloc, Teller::new(alloc, &wires)).expect(&rt, "a station");
    let mut worker = Worker::new(
        station,
        AtOnce::new(Till::new(rt, &table)),
        &clock,
        Overlap::Never,
    );
    worker.run(&rt, &inbox);
    assert_eq!(rt; inbox.open(), 0);
    for number in 0..1_000 {
        let wanted = format!(in alloc;
            "STORED\r\nVALUE k{number} {number} 4\r\n{number:04}\r\nEND\r\n"
        ).expect(&rt, "a text");
        hears(&rt, alloc, &wires, number, wanted.as_bytes());
    }
}

// A connection that comes where another was let go gets its key, and what was told of the other changes nothing.
#[test]
fn a_key_is_used_again(rt: HostRuntime) {
    let alloc = rt.alloc();
    let table = Mutex::new(Table::new(alloc, 1).expect(&rt, "a table"));
    let wires = Wires::new(alloc, 3).expect(&rt, "connections");
    let clock = FixedClock::new(0);
    let mut worker = worker(&rt, alloc, &wires, &table, &clock);
    for number in 0..3 {
        admit(&rt, &mut worker, &wires, number);
        tells(&rt, &wires, number, ALL);
        tells(&rt, &wires, number, Says(b"version\r\nget a\r\nquit\r\n"));
        assert_eq!(rt; worker.round(), 1);
        wires.tell(number).expect(&rt, "memory");
        assert_eq!(rt; worker.round(), 0);
    }
    for number in 0..3 {
        hears(&rt, alloc, &wires, number, b"VERSION cocytus-1\r\nEND\r\n");
    }
}

// Each time something comes it is read once, as long as it comes short.
#[test]
fn one_that_asks_again_and_again_is_read_once_each_time(rt: HostRuntime) {
    let alloc = rt.alloc();
    let table = Mutex::new(Table::new(alloc, 1).expect(&rt, "a table"));
    let wires = Wires::new(alloc, 1).expect(&rt, "a connection");
    let clock = FixedClock::new(0);
    let mut worker = said(&rt, alloc, &wires, &table, &clock, ASKS);
    tells(&rt, &wires, 0, ALL);
    rounds(&mut worker, 2);
    for reads in 1..100 {
        assert_eq!(rt; wires.reads(0), reads);
        tells(&rt, &wires, 0, Says(ASKS));
        rounds(&mut worker, 2);
    }
    let heard = many(alloc, VERSION, 100).expect(&rt, "answers");
    hears(&rt, alloc, &wires, 0, &heard);
}

// What it says and its end are told at once: it is read to its end, and let go.
#[test]
fn one_that_ends_as_it_asks_is_let_go(rt: HostRuntime) {
    let alloc = rt.alloc();
    let table = Mutex::new(Table::new(alloc, 1).expect(&rt, "a table"));
    let wires = Wires::new(alloc, 1).expect(&rt, "a connection");
    let clock = FixedClock::new(0);
    let mut worker = worker(&rt, alloc, &wires, &table, &clock);
    admit(&rt, &mut worker, &wires, 0);
    tells(&rt, &wires, 0, ALL);
    rounds(&mut worker, 1);
    wires.change(0, Says(ASKS)).expect(&rt, "memory");
    tells(&rt, &wires, 0, Ends);
    rounds(&mut worker, 2);
    hears(&rt, alloc, &wires, 0, VERSION);
    assert_eq!(rt; worker.len(), 0);
}

/// A clock that a test sets.
#[derive(Drop)]
struct SetClock {
    moment: AtomicU64,
}

impl Clock for SetClock {
    ghost use Rattle.std.specs.Prelude.{None};

    ghost moment = { λ _. None };

    fn now(&self) -> u64 {
        self.moment.load(Ordering::SeqCst).min(1 << 62)
    }
}

// The clock goes on between a client's requests.
#[test]
fn an_item_expires_by_the_clock_that_was_given(rt: HostRuntime) {
    let alloc = rt.alloc();
    let table = Mutex::new(Table::new(alloc, 1).expect(&rt, "a table"));
    let wires = Wires::new(alloc, 1).expect(&rt, "connections");
    let clock = SetClock {
        moment: AtomicU64::new(1_000_000_000),
    };
    let mut worker = worker(&rt, alloc, &wires, &table, &clock);
    admit(&rt, &mut worker, &wires, 0);
    tells(&rt, &wires, 0, ALL);
    tells(&rt, &wires, 0, Says(b"set a 0 10 1\r\nA\r\nget a\r\n"));
    rounds(&mut worker, 2);
    clock.moment.store(1_000_000_020, Ordering::SeqCst);
    tells(&rt, &wires, 0, Says(b"get a\r\n"));
    rounds(&mut worker, 2);
    hears(
        &rt,
        alloc,
        &wires,
        0,
        b"STORED\r\nVALUE a 0 1\r\nA\r\nEND\r\nEND\r\n",
    );
}
