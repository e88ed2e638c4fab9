// Connections over a clock that goes on.
use crate::program::runs::{owned, run_at};
use edge_io::{Clock, MemoryListener, MemorySink, MemorySource};
use group_program::{MemberEnd, MemoryMachine, Silent, run_program};
use std::alloc::{AllocError, Global};
use std::sync::Wait;
use std::sync::atomic::{AtomicU64, Ordering};
use std::test::Fail;
use std::thread::Threads;

/// A clock that is one second later each time that it is read.
#[derive(Drop)]
pub(crate) struct Ticking(pub(crate) AtomicU64);

impl Clock for Ticking {
    ghost use Rattle.std.specs.Prelude.{None};

    ghost moment = { λ _. None };

    fn now(&self) -> u64 {
        self.0.fetch_add(1, Ordering::SeqCst).min(1 << 62)
    }
}

const ROWS: [(&str, &str); 2] = [
    ("set a 0 1 1\r\nA\r\nget a\r\n", "STORED\r\nEND\r\n"),
    (
        "set a 0 2 1\r\nA\r\nget a a\r\n",
        "STORED\r\nVALUE a 0 1\r\nA\r\nEND\r\n",
    ),
];

#[test]
fn gives_each_call_a_moment_of_its_own(rt: HostRuntime) -> Result<(), Fail> {
    let words = owned(rt.alloc(), &["session", "2", "0", "4", "16"])?;
    for (input, written) in ROWS {
        let clock = Ticking(AtomicU64::new(100));
        let told = run_at(&rt, rt.alloc(), &words, input.as_bytes(), &clock)?;
        assert_eq!(rt; told.as_slice(), written.as_bytes());
    }
    Ok(())
}

const SETTINGS: &str =
    "k = 2\nm = 0\nblocks = 4\nblock = 16\naddress = \"127.0.0.1:11211\"\nworkers = 1\nconnections = 1\n";

/// What the one client of a served group is told at the moments of a clock.
fn served_at<R: Threads + Wait + Sync>(
    rt: &R,
    alloc: Global,
    says: &str,
    clock: &Ticking,
) -> Result<Vec<u8>, AllocError> {
    let words = owned(alloc, &["serve"])?;
    let mut source = MemorySource::new(alloc, SETTINGS.as_bytes(), &[])?;
    let mut sink = MemorySink::new(alloc, &[])?;
    let mut clients = Vec::new(alloc);
    clients.push(Vec::from_slice(alloc, says.as_bytes())?)?;
    let mut listener = MemoryListener::new(alloc, clients, &[])?;
    run_program(
        rt,
        alloc,
        &words,
        &mut source,
        &mut sink,
        &mut listener,
        &mut MemoryMachine::new(MemberEnd::Ended),
        &Silent,
        clock,
    );
    listener.held(alloc, 1)
}

#[test]
fn gives_each_call_of_a_served_group_a_moment_of_its_own(rt: HostRuntime) -> Result<(), Fail> {
    for (says, told) in ROWS {
        let clock = Ticking(AtomicU64::new(100));
        let heard = served_at(&rt, rt.alloc(), says, &clock)?;
        assert_eq!(rt; heard.as_slice(), told.as_bytes());
    }
    Ok(())
}
