ghost use Rattle.group_stage.specs.Seated.{IsOf};

// A caller beside the server reads what a connection stored.
use crate::server::stages::{STORED, STORES, listener, settings_of};
use edge_io::{FixedClock, MemoryListener};
use front_end::Caller;
use group_server::{Silent, Terms, serve_group};
use group_stage::{Seat, Stage};
use group_types::{Key, Shape};
use memc_proto::CallEnd;
use memc_table::{Act, Op, Reply};
use node_worker::{OpenGate, ServeFault};
use stage_caller::StageCaller;
use std::alloc::{AllocError, Global};
use std::process::Abort;
use std::sync::Wait;
use std::test::Fail;
use std::thread::Threads;

/// A get of the key that the client stores.
fn get(rt: &impl Abort, alloc: Global) -> Op {
    let key = Key::read(alloc, b"a".as_slice()).expect(rt, "it is a key");
    Op::new(0, found(key))
}

fn found(key: Key) -> Act {
    Act::Get { key }
}

/// What a caller reads from a seat beside those of the server.
fn read(op: &Op, stage: &Stage, seat: Seat) -> Option<u8>
    requires { IsOf stage.now seat }
{
    let mut caller = StageCaller::new(stage, seat, false);
    first_byte(&caller.call(op))
}

fn first_byte(end: &Result<CallEnd, AllocError>) -> Option<u8> {
    match end {
        Ok(CallEnd::Reply(Reply::Value(item))) => item.value.bytes().first().copied(),
        _ => None,
    }
}

/// Serves a client with four seats, and reads from a fifth.
fn serve_and_read<R: Threads + Wait + Abort + Sync>(
    rt: &R,
    alloc: Global,
    clients: &mut MemoryListener,
    shape: Shape,
) -> (Result<u64, ServeFault>, Option<u8>) {
    let settings = settings_of(alloc, shape, 2, 1).expect(rt, "they are settings");
    let (stage, mut seats) = Stage::new(alloc, shape, 5).expect(rt, "there is memory");
    let Some(spare) = seats.take() else {
        unreachable!()
    };
    let terms = Terms {
        settings: &settings,
        gate: &OpenGate,
        notice: &Silent,
        clock: &FixedClock::new(0),
    };
    let served = serve_group(rt, alloc, clients, &stage, seats, &terms);
    let get = get(rt, alloc);
    let found = read(&get, &stage, spare);
    drop(get);
    (served, found)
}

/// Whether a spare caller reads what a connection stored.
fn is_shared<R: Threads + Wait + Abort + Sync>(
    rt: &R,
    alloc: Global,
    shape: Shape,
) -> Result<bool, Fail> {
    let mut clients = listener(alloc, &[STORES], &[])?;
    let (served, found) = serve_and_read(rt, alloc, &mut clients, shape);
    let held = clients.held(alloc, 1)?;
    Ok(served == Ok(1) && held.as_slice() == STORED && found == Some(b'A'))
}

#[test]
fn a_spare_caller_reads_what_a_connection_stored(rt: HostRuntime) -> Result<(), Fail> {
    assert!(rt; is_shared(&rt, rt.alloc(), Shape::new(1, 0, 16, 1024)?)?);
    Ok(())
}

#[test]
fn it_does_in_a_coded_group(rt: HostRuntime) -> Result<(), Fail> {
    assert!(rt; is_shared(&rt, rt.alloc(), Shape::new(4, 2, 1024, 1024)?)?);
    Ok(())
}
