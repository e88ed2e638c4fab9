// Two connections at once, of which the first reads what the second stored.
use crate::program::door::{Door, Ear, Heard, Mouth};
use crate::program::runs::owned;
use edge_io::{FixedClock, MemorySink, MemorySource};
use group_program::{MemberEnd, MemoryMachine, Silent, Status, run_program};
use std::alloc::{AllocError, Global};
use std::sync::{Arc, Wait};
use std::test::Fail;
use std::thread::Threads;

/// The client that comes first says this once the other heard that its value is stored, and hears the value.
const READS: &[u8] = b"get a\r\nquit\r\n";

const VALUE: &[u8] = b"VALUE a 0 1\r\nA\r\nEND\r\n";

const STORES: &[u8] = b"set a 0 0 1\r\nA\r\nquit\r\n";

const STORED: &[u8] = b"STORED\r\n";

fn client(
    text: &'static [u8],
    due: usize,
    other: &Arc<Heard>,
    own: &Arc<Heard>,
) -> Result<(Mouth, Ear), AllocError> {
    let other = other.clone()?;
    Ok((Mouth { text, due, other }, Ear(own.clone()?)))
}

fn door(alloc: Global, first: &Arc<Heard>, second: &Arc<Heard>) -> Result<Door, AllocError> {
    let mut clients = Vec::new(alloc);
    clients.push(client(STORES, 0, second, second)?)?;
    clients.push(client(READS, STORED.len(), second, first)?)?;
    Ok(Door::new(clients))
}

/// How serving so many clients at a door by so many workers ends, and what is written.
fn serve<R: Threads + Wait + Sync>(
    rt: &R,
    alloc: Global,
    door: &mut Door,
    workers: u32,
    clients: u32,
) -> Result<(Status, Vec<u8>), AllocError> {
    let settings = format!(in alloc;
        "k = 4\nm = 2\nblocks = 1024\nblock = 4096\naddress = \"127.0.0.1:11211\"\nworkers = {workers}\nconnections = {clients}\n"
    )?;
    let words = owned(alloc, &["serve"])?;
    let mut source = MemorySource::new(alloc, settings.as_bytes(), &[])?;
    let mut sink = MemorySink::new(alloc, &[])?;
    let clock = FixedClock::new(0);
    let status = run_program(
        rt,
        alloc,
        &words,
        &mut source,
        &mut sink,
        door,
        &mut MemoryMachine::new(MemberEnd::Ended),
        &Silent,
        &clock,
    );
    Ok((status, Vec::from_slice(alloc, sink.bytes())?))
}

/// Whether a client heard just this.
fn heard(client: &Heard, text: &[u8]) -> bool {
    match client.bytes.try_lock() {
        Some(bytes) => bytes.as_slice() == text,
        None => false,
    }
}

#[test]
fn a_connection_reads_what_another_stored(rt: HostRuntime) -> Result<(), Fail> {
    let first = Heard::nothing(rt.alloc())?;
    let second = Heard::nothing(rt.alloc())?;
    let mut door = door(rt.alloc(), &first, &second)?;
    let (status, written) = serve(&rt, rt.alloc(), &mut door, 2, 2)?;
    assert_eq!(rt; status, Status::Done);
    assert_eq!(rt; written.as_slice(), b"listening\nserved 2\n".as_slice());
    assert!(rt; heard(&first, VALUE));
    assert!(rt; heard(&second, STORED));
    Ok(())
}

// Three come to three workers, and say nothing before a fourth is answered, which the accepting thread serves.
#[test]
fn a_connection_is_served_beside_three_that_wait_for_it(rt: HostRuntime) -> Result<(), Fail> {
    let last = Heard::nothing(rt.alloc())?;
    let others = [
        Heard::nothing(rt.alloc())?,
        Heard::nothing(rt.alloc())?,
        Heard::nothing(rt.alloc())?,
    ];
    let mut clients = Vec::new(rt.alloc());
    clients.push(client(STORES, 0, &last, &last)?)?;
    for other in &others {
        clients.push(client(READS, STORED.len(), &last, other)?)?;
    }
    let (status, written) = serve(&rt, rt.alloc(), &mut Door::new(clients), 3, 4)?;
    assert_eq!(rt; status, Status::Done);
    assert_eq!(rt; written.as_slice(), b"listening\nserved 4\n".as_slice());
    for other in &others {
        assert!(rt; heard(other, VALUE));
    }
    assert!(rt; heard(&last, STORED));
    Ok(())
}
