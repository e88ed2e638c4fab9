// What a worker's clients hear whose bytes come and go in any order, as rows by hand.
use crate::bench::{admit, hears, rounds, tells, worker};
use crate::wires::Change::{BreaksReading, BreaksWriting, Cuts, Ends, Says, Takes};
use crate::wires::{Change, Wires};
use edge_io::FixedClock;
use memc_table::Table;
use std::alloc::Global;
use std::process::Abort;
use std::sync::{Mutex, Wait};

/// A step of a schedule.
#[derive(Clone, Copy)]
enum Step {
    /// This happens to a connection, and the worker is told.
    Tells(usize, Change<'static>),
    /// This happens to a connection, and the worker isn't told yet.
    Hides(usize, Change<'static>),
    /// The worker is told that a connection is ready.
    Ready(usize),
    /// The worker makes so many rounds.
    Rounds(usize),
}

use Step::{Hides, Ready, Rounds, Tells};

/// How many connections there are, what happens to them, and what is heard on each in the end.
struct Schedule {
    clients: usize,
    steps: &'static [Step],
    heard: &'static [&'static [u8]],
}

const ALL: Change<'static> = Takes(1 << 20);

const VERSION: &[u8] = b"VERSION cocytus-1\r\n";

const SCHEDULES: [Schedule; 14] = [
    // Nothing is said, and nothing is heard.
    Schedule {
        clients: 2,
        steps: &[Tells(0, ALL), Ready(1), Rounds(2)],
        heard: &[b"", b""],
    },
    // A request in two parts, between which another is answered.
    Schedule {
        clients: 2,
        steps: &[
            Tells(0, ALL),
            Tells(1, ALL),
            Tells(0, Says(b"set a 0 0 1\r")),
            Rounds(3),
            Tells(1, Says(b"version\r\n")),
            Rounds(3),
            Tells(0, Says(b"\nA\r\nget a b\r\n")),
            Rounds(3),
        ],
        heard: &[b"STORED\r\nVALUE a 0 1\r\nA\r\nEND\r\n", VERSION],
    },
    // Room comes byte by byte.
    Schedule {
        clients: 1,
        steps: &[
            Tells(0, Says(b"delete a\r\nget a\r\n")),
            Rounds(2),
            Tells(0, Takes(1)),
            Rounds(2),
            Tells(0, Takes(3)),
            Rounds(2),
            Tells(0, Takes(8)),
            Rounds(2),
        ],
        heard: &[b"NOT_FOUND\r\nE"],
    },
    // What is written of one isn't heard by the other, whichever gets room first.
    Schedule {
        clients: 2,
        steps: &[
            Hides(0, Says(b"set a 0 0 1\r\nA\r\nget a\r\n")),
            Hides(1, Says(b"get a\r\nversion\r\n")),
            Ready(0),
            Ready(1),
            Rounds(4),
            Tells(1, ALL),
            Rounds(2),
            Tells(0, ALL),
            Rounds(2),
        ],
        heard: &[
            b"STORED\r\nVALUE a 0 1\r\nA\r\nEND\r\n",
            b"END\r\nVERSION cocytus-1\r\n",
        ],
    },
    // The one that is told last is served first.
    Schedule {
        clients: 2,
        steps: &[
            Hides(0, ALL),
            Hides(1, ALL),
            Hides(0, Says(b"append a 0 0 1\r\nA\r\nget a\r\n")),
            Hides(1, Says(b"set a 0 0 1\r\nB\r\n")),
            Ready(0),
            Ready(1),
            Rounds(2),
        ],
        heard: &[b"STORED\r\nVALUE a 0 2\r\nBA\r\nEND\r\n", b"STORED\r\n"],
    },
    // A client that is told many times is answered once.
    Schedule {
        clients: 1,
        steps: &[
            Hides(0, ALL),
            Hides(0, Says(b"version\r\n")),
            Ready(0),
            Ready(0),
            Ready(0),
            Rounds(1),
            Ready(0),
            Ready(0),
            Rounds(3),
        ],
        heard: &[VERSION],
    },
    // One leaves in the middle of a request, and the others go on.
    Schedule {
        clients: 3,
        steps: &[
            Hides(0, ALL),
            Hides(1, ALL),
            Hides(2, ALL),
            Tells(0, Says(b"set a 0 0 5\r\nab")),
            Tells(1, Says(b"get a\r\n")),
            Tells(0, Ends),
            Rounds(3),
            Tells(2, Says(b"get a\r\n")),
            Rounds(3),
        ],
        heard: &[b"", b"END\r\n", b"END\r\n"],
    },
    // A read fails: what was answered before was heard, and nothing more.
    Schedule {
        clients: 2,
        steps: &[
            Hides(0, ALL),
            Hides(1, ALL),
            Tells(0, Says(b"version\r\nset a 0 0 1\r\n")),
            Rounds(2),
            Tells(0, BreaksReading),
            Rounds(2),
            Tells(1, Says(b"get a\r\n")),
            Rounds(2),
        ],
        heard: &[VERSION, b"END\r\n"],
    },
    // A write fails: the others hear theirs.
    Schedule {
        clients: 2,
        steps: &[
            Hides(1, ALL),
            Hides(0, BreaksWriting),
            Tells(0, Says(b"set a 0 0 1\r\nA\r\n")),
            Tells(1, Says(b"get a\r\n")),
            Rounds(4),
            Tells(1, Says(b"version\r\n")),
            Rounds(2),
        ],
        heard: &[b"", b"END\r\nVERSION cocytus-1\r\n"],
    },
    // A client that quits is let go, and one that is told of later isn't served with its key.
    Schedule {
        clients: 2,
        steps: &[
            Hides(0, ALL),
            Hides(1, ALL),
            Tells(0, Says(b"version\r\nquit\r\nversion\r\n")),
            Rounds(2),
            Ready(0),
            Tells(1, Says(b"version\r\n")),
            Rounds(2),
        ],
        heard: &[VERSION, VERSION],
    },
    // Reads give a byte at a time.
    Schedule {
        clients: 2,
        steps: &[
            Hides(0, ALL),
            Hides(1, ALL),
            Hides(0, Cuts(1)),
            Hides(1, Cuts(2)),
            Tells(0, Says(b"set a 0 0 2\r\nAA\r\nincr a 1\r\nget a\r\n")),
            Tells(1, Says(b"set b 5 0 2\r\n41\r\nincr b 1\r\nget b\r\n")),
            Rounds(20),
        ],
        heard: &[
            b"STORED\r\nCLIENT_ERROR cannot increment or decrement non-numeric value\r\nVALUE a 0 2\r\nAA\r\nEND\r\n",
            b"STORED\r\n42\r\nVALUE b 5 2\r\n42\r\nEND\r\n",
        ],
    },
    // A client that says all at once and takes nothing holds up nobody.
    Schedule {
        clients: 2,
        steps: &[
            Hides(1, ALL),
            Tells(0, Says(b"version\r\nversion\r\nversion\r\n")),
            Tells(0, Ends),
            Rounds(3),
            Tells(1, Says(b"version\r\n")),
            Rounds(3),
            Tells(0, Takes(19)),
            Rounds(3),
            Tells(0, Takes(20)),
            Rounds(3),
        ],
        heard: &[b"VERSION cocytus-1\r\nVERSION cocytus-1\r\nV", VERSION],
    },
    // The end of what is said is met before what was said is read.
    Schedule {
        clients: 1,
        steps: &[
            Hides(0, ALL),
            Hides(0, Says(b"version\r\n")),
            Tells(0, Ends),
            Rounds(3),
        ],
        heard: &[VERSION],
    },
    // A line that is no request is refused, and the next is answered.
    Schedule {
        clients: 1,
        steps: &[
            Hides(0, ALL),
            Tells(0, Says(b"bogus\r\nver")),
            Rounds(2),
            Tells(0, Says(b"sion\r\n")),
            Rounds(2),
        ],
        heard: &[b"ERROR\r\nVERSION cocytus-1\r\n"],
    },
];

/// Plays a schedule, and looks at what was heard.
fn play<R: Wait + Abort + Copy>(rt: &R, alloc: Global, schedule: &Schedule) {
    let table = Mutex::new(Table::new(alloc, 1).expect(rt, "a table"));
    let wires = Wires::new(alloc, schedule.clients).expect(rt, "connections");
    let clock = FixedClock::new(0);
    let mut worker = worker(rt, alloc, &wires, &table, &clock);
    for number in 0..schedule.clients {
        admit(rt, &mut worker, &wires, number);
    }
    for step in schedule.steps {
        match *step {
            Tells(number, change) => tells(rt, &wires, number, change),
            Hides(number, change) => wires.change(number, change).expect(rt, "memory"),
            Ready(number) => wires.tell(number).expect(rt, "memory"),
            Rounds(count) => rounds(&mut worker, count),
        }
    }
    for (number, wanted) in schedule.heard.iter().enumerate() {
        hears(rt, alloc, &wires, number, wanted);
    }
}

#[test]
fn are_heard_as_the_rows_say(rt: HostRuntime) {
    for schedule in &SCHEDULES {
        play(&rt, rt.alloc(), schedule);
    }
}

/// What a client says in two pieces, between which another says something too.
const SAID: &[u8] = b"set a 7 0 3\r\nabc\r\nget a zz a\r\ndelete a noreply\r\nget a\r\nversion\r\n";

const ANSWERED: &[u8] =
    b"STORED\r\nVALUE a 7 3\r\nabc\r\nVALUE a 7 3\r\nabc\r\nEND\r\nEND\r\nVERSION cocytus-1\r\n";

/// Plays what is said, cut at this place.
fn play_cut<R: Wait + Abort + Copy>(rt: &R, alloc: Global, cut: usize) {
    let table = Mutex::new(Table::new(alloc, 1).expect(rt, "a table"));
    let wires = Wires::new(alloc, 2).expect(rt, "connections");
    let clock = FixedClock::new(0);
    let mut worker = worker(rt, alloc, &wires, &table, &clock);
    admit(rt, &mut worker, &wires, 0);
    admit(rt, &mut worker, &wires, 1);
    let (first, rest) = (SAID.get(..cut), SAID.get(cut..));
    tells(rt, &wires, 1, ALL);
    tells(rt, &wires, 0, Takes(cut));
    tells(rt, &wires, 0, Says(first.unwrap_or_default()));
    rounds(&mut worker, 3);
    tells(rt, &wires, 1, Says(b"get b\r\n"));
    rounds(&mut worker, 3);
    tells(rt, &wires, 0, Says(rest.unwrap_or_default()));
    tells(rt, &wires, 0, ALL);
    rounds(&mut worker, 3);
    hears(rt, alloc, &wires, 0, ANSWERED);
    hears(rt, alloc, &wires, 1, b"END\r\n");
}

#[test]
fn are_heard_wherever_what_is_said_is_cut(rt: HostRuntime) {
    for cut in 0..=SAID.len() {
        play_cut(&rt, rt.alloc(), cut);
    }
}
