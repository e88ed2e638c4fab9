// A worker over connections in memory, and what a test does with it.
use crate::shop::Till;
use crate::wires::{Change, Teller, Wires};
use edge_io::Clock;
use front_end::AtOnce;
use memc_table::Table;
use ready_worker::{Overlap, Station, Worker};
use std::alloc::Global;
use std::process::Abort;
use std::sync::{Mutex, Wait};

/// A worker whose streams are connections in memory.
pub(crate) type MemoryWorker<'t, R, T> = Worker<'t, Teller<'t>, AtOnce<Till<'t, R>>, T>;

/// A worker over a table.
pub(crate) fn worker<'t, R: Wait + Abort + Copy, T: Clock>(
    rt: &R,
    alloc: Global,
    wires: &'t Wires,
    table: &'t Mutex<Table>,
    clock: &'t T,
) -> MemoryWorker<'t, R, T> {
    let station = Station::new(alloc, Teller::new(alloc, wires)).expect(rt, "a station");
    Worker::new(
        station,
        AtOnce::new(Till::new(*rt, table)),
        clock,
        Overlap::Never,
    )
}

/// The worker gets this connection.
pub(crate) fn admit<'t, R: Wait + Abort, T: Clock>(
    rt: &R,
    worker: &mut MemoryWorker<'t, R, T>,
    wires: &'t Wires,
    number: usize,
) {
    assert!(rt;
        worker.admit(wires.stream(number)),
        "connection {number} has a place"
    );
}

/// This happens to a connection, and the worker is told.
pub(crate) fn tells(rt: &impl Abort, wires: &Wires, number: usize, change: Change<'_>) {
    wires.change(number, change).expect(rt, "memory");
    wires.tell(number).expect(rt, "memory");
}

/// The worker makes so many rounds.
pub(crate) fn rounds<R: Wait, T: Clock>(worker: &mut MemoryWorker<'_, R, T>, count: usize) {
    for _ in 0..count {
        worker.round();
    }
}

/// On a connection this was heard.
pub(crate) fn hears(rt: &impl Abort, alloc: Global, wires: &Wires, number: usize, wanted: &[u8]) {
    let heard = wires.heard(alloc, number).expect(rt, "what is heard");
    assert_eq!(rt; heard.as_slice(), wanted, "on connection {number}");
}
