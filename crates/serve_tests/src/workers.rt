// Connections in memory, served by several workers.
use crate::memory::{hears, listener, same};
use crate::shop::Shop;
use edge_io::{FixedClock, Listener};
use memc_table::Table;
use node_worker::{Gate, OpenGate, ServeFault, Serving, serve_all};
use std::alloc::{AllocError, Global};
use std::sync::atomic::{AtomicBool, Ordering};
use std::sync::{Mutex, Wait};
use std::thread;
use std::thread::Threads;

/// What a client says that stores a value and reads it back.
const STORES: &[u8] = b"set a 0 0 1\r\nA\r\nget a\r\nquit\r\n";

/// What it is answered.
const STORED: &[u8] = b"STORED\r\nVALUE a 0 1\r\nA\r\nEND\r\n";

/// How often a gate that waits looks before it gives up.
const TURNS: u32 = 100_000_000;

/// A gate that holds connection 1 until connection 2 was served.
#[derive(Drop)]
struct SecondFirst {
    served: AtomicBool,
    gave_up: AtomicBool,
    turns: u32,
}

impl SecondFirst {
    fn new(turns: u32) -> SecondFirst {
        SecondFirst {
            served: AtomicBool::new(false),
            gave_up: AtomicBool::new(false),
            turns,
        }
    }

    fn wait(&self) {
        for _ in 0..self.turns {
            if self.served.load(Ordering::SeqCst) {
                return;
            }
            thread::yield_now();
        }
        self.gave_up.store(true, Ordering::SeqCst);
    }
}

impl Gate for SecondFirst {
    fn before(&self, connection: u64) {
        if connection == 1 {
            self.wait();
        }
    }

    fn after(&self, connection: u64) {
        if connection == 2 {
            self.served.store(true, Ordering::SeqCst);
        }
    }
}

/// Serves connections over a table of their own.
pub(crate) fn served<R, L, G>(
    rt: R,
    alloc: Global,
    listener: &mut L,
    gate: &G,
    workers: u32,
    connections: u64,
) -> Result<u64, ServeFault>
where
    R: Threads + Wait + Sync + Send + Copy,
    L: Listener,
    L::Incoming: Drop,
    L::Outgoing: Drop,
    G: Gate,
{
    match Table::new(alloc, 1) {
        Ok(table) => {
            let table = Mutex::new(table);
            let (shop, clock) = (Shop::new(rt, &table), FixedClock::new(0));
            let serving = Serving {
                port: &shop,
                gate,
                clock: &clock,
                workers,
                connections,
            };
            serve_all(&rt, alloc, listener, &serving)
        }
        Err(AllocError) => Err(ServeFault::Want),
    }
}

#[test]
fn serves_beside_each_other(rt: HostRuntime) {
    for workers in [1, 2, 64] {
        let mut listener = listener(&rt, rt.alloc(), &[STORES, STORES], &[]);
        let gate = SecondFirst::new(TURNS);
        same(
            &rt,
            served(rt, rt.alloc(), &mut listener, &gate, workers, 2),
            Ok(2),
        );
        assert!(rt;
            !gate.gave_up.load(Ordering::SeqCst),
            "with {workers} workers"
        );
        hears(&rt, rt.alloc(), &listener, 1, STORED);
        hears(&rt, rt.alloc(), &listener, 2, STORED);
    }
}

#[test]
fn serves_one_after_another_without_workers(rt: HostRuntime) {
    let mut listener = listener(&rt, rt.alloc(), &[STORES, STORES], &[]);
    let gate = SecondFirst::new(10);
    same(
        &rt,
        served(rt, rt.alloc(), &mut listener, &gate, 0, 0),
        Ok(2),
    );
    assert!(rt; gate.gave_up.load(Ordering::SeqCst));
}

#[test]
fn stops_at_its_number_of_connections(rt: HostRuntime) {
    let mut listener = listener(&rt, rt.alloc(), &[STORES, STORES, STORES], &[]);
    for (count, last) in [(2, b"".as_slice()), (1, STORED)] {
        same(
            &rt,
            served(rt, rt.alloc(), &mut listener, &OpenGate, 4, 2),
            Ok(count),
        );
        hears(&rt, rt.alloc(), &listener, 3, last);
    }
}

#[test]
fn tells_an_accept_that_failed(rt: HostRuntime) {
    for (failing, answers) in [(1, b"".as_slice()), (2, STORED)] {
        let mut listener = listener(&rt, rt.alloc(), &[STORES], &[failing]);
        let served = served(rt, rt.alloc(), &mut listener, &OpenGate, 4, 0);
        same(&rt, served, Err(ServeFault::AcceptFault));
        hears(&rt, rt.alloc(), &listener, 1, answers);
    }
}

#[test]
fn one_connection_ends_alone(rt: HostRuntime) {
    let said = [b"set a 0 0 5\r\nab".as_slice(), b"get a\r\n", STORES];
    let mut listener = listener(&rt, rt.alloc(), &said, &[]);
    same(
        &rt,
        served(rt, rt.alloc(), &mut listener, &OpenGate, 0, 0),
        Ok(3),
    );
    for (connection, answers) in [(1, b"".as_slice()), (2, b"END\r\n"), (3, STORED)] {
        hears(&rt, rt.alloc(), &listener, connection, answers);
    }
}
