// What callers left behind is delivered by the server.
ghost use Rattle.group_stage.specs.Seated.{IsOf};

use crate::server::stages::{listener, settings_of};
use edge_io::FixedClock;
use group_calls::Answer;
use group_server::{Silent, Terms, serve_group};
use group_stage::{Seat, Stage, StageAnswer};
use group_types::{Key, Payload, ProcessId, Shape, home};
use memc_table::{Act, Op};
use node_worker::Gate;
use std::alloc::{AllocError, Global};
use std::process::Abort;
use std::sync::atomic::{AtomicBool, Ordering};
use std::sync::{Mutex, Wait};
use std::test::Fail;
use std::thread;
use std::thread::Threads;

/// How often a ticket is collected.
const TURNS: u32 = 10_000_000;

/// A seat beside the server's, which asks and collects but delivers nothing.
#[derive(Drop)]
struct Spare<'a> {
    stage: &'a Stage,
    seat: Seat,
    op: Op,
    ghost of_stage: { IsOf stage.now seat },
}

impl<'a> Spare<'a> {
    fn new(stage: &'a Stage, seat: Seat, op: Op) -> Spare<'a>
        requires { IsOf stage.now seat }
    {
        Spare { stage, seat, op }
    }

    // The data process of the op's key.
    fn ask(&mut self) -> Result<StageAnswer, AllocError> {
        let data = home(self.op.act().key(), self.stage.shape().k());
        let at = ProcessId::DataNode(data.0);
        self.stage.try_ask(&mut self.seat, &self.op, at)
    }

    fn collect(&mut self, call: u64) -> Result<StageAnswer, AllocError> {
        let data = home(self.op.act().key(), self.stage.shape().k());
        let at = ProcessId::DataNode(data.0);
        self.stage.try_collect(&mut self.seat, call, at)
    }

    // The number of its call, where that is answered with a ticket.
    fn ticket(&mut self) -> Option<u64> {
        'turns: for _ in 0..TURNS {
            let call = self.seat.asks();
            match self.ask() {
                Ok(StageAnswer::Busy(_)) => thread::yield_now(),
                Ok(StageAnswer::Made(Answer::Ticket(_))) => return Some(call),
                _ => return None,
            }
        }
        None
    }

    // Whether the ticket is collected with a reply.
    fn waits(&mut self, call: u64) -> bool {
        'turns: for _ in 0..TURNS {
            match self.collect(call) {
                Ok(StageAnswer::Busy(_)) => thread::yield_now(),
                Ok(StageAnswer::Made(Answer::NotYet)) => thread::yield_now(),
                Ok(StageAnswer::Made(Answer::Reply(_))) => return true,
                _ => return false,
            }
        }
        false
    }

    fn settles(&mut self) -> bool {
        match self.ticket() {
            Some(call) => self.waits(call),
            None => false,
        }
    }
}

/// A gate that holds the first connection until the call of a spare seat was settled.
#[derive(Drop)]
struct Settled<'a> {
    spare: Mutex<Spare<'a>>,
    settled: AtomicBool,
}

impl Gate for Settled<'_> {
    fn before(&self, _connection: u64) {
        if let Some(mut spare) = self.spare.try_lock() {
            let settled = spare.settles();
            self.settled.store(settled, Ordering::SeqCst);
        }
    }

    fn after(&self, _connection: u64) {}
}

fn set(rt: &impl Abort, alloc: Global) -> Op {
    let act = Act::Set {
        key: Key::read(alloc, b"b".as_slice()).expect(rt, "it is a key"),
        flags: 0,
        expiry: 0,
        value: Payload::of(alloc, b"B".as_slice()).expect(rt, "there is memory"),
    };
    Op::new(0, act)
}

/// Serves no client before the call of a spare seat is settled, and says whether it was.
fn settles<R: Threads + Wait + Abort + Sync>(rt: &R, alloc: Global) -> bool {
    let shape = Shape::new(4, 2, 1024, 1024).expect(rt, "it is a shape");
    let settings = settings_of(alloc, shape, 1, 1).expect(rt, "they are settings");
    let (stage, mut seats) = Stage::new(alloc, shape, 4).expect(rt, "there is memory");
    let Some(seat) = seats.take() else {
        unreachable!()
    };
    let gate = Settled {
        spare: Mutex::new(Spare::new(&stage, seat, set(rt, alloc))),
        settled: AtomicBool::new(false),
    };
    let mut clients = listener(alloc, &[b"quit\r\n".as_slice()], &[]).expect(rt, "there is memory");
    let terms = Terms {
        settings: &settings,
        gate: &gate,
        notice: &Silent,
        clock: &FixedClock::new(0),
    };
    let served = serve_group(rt, alloc, &mut clients, &stage, seats, &terms);
    let settled = gate.settled.load(Ordering::SeqCst);
    drop(gate);
    served == Ok(1) && settled
}

#[test]
fn a_call_is_settled_that_nobody_else_delivers(rt: HostRuntime) -> Result<(), Fail> {
    assert!(rt; settles(&rt, rt.alloc()));
    Ok(())
}
