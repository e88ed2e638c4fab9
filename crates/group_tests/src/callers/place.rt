// A seat at a stage, which asks by itself, and lets its caller end the call.
ghost use Rattle.std.specs.Prelude.{◌↔◌, IsTrue, IfSome};
ghost use Rattle.group_types.specs.Names.{IsProcess};
ghost use Rattle.group_stage.specs.Seated.{IsOf, shape_of};

use crate::callers::own_keys::is_same;
use front_end::Caller;
use group_calls::Answer;
use group_stage::{Seat, Stage, StageAnswer};
use group_types::{ProcessId, Shape, home};
use memc_proto::CallEnd;
use memc_table::{Op, Reply};
use stage_caller::StageCaller;
use std::alloc::AllocError;
use std::thread;

/// How often a failure is tried.
const TRIES: u32 = 1_000_000_000;

/// The processes that may head a partition, by rank.
const RANKS: u32 = 3;

// What an ask came to: whether its reply is the one that is wanted, the number of a ticket, or neither.
#[derive(Clone, Copy)]
enum Told {
    Reply(bool),
    Ticket(u64),
    Other,
}

#[derive(Drop)]
pub(crate) struct Place<'a> {
    stage: &'a Stage,
    seat: Seat,
    ghost of_stage: { IsOf stage.now seat },
}

impl<'a> Place<'a> {
    pub(crate) fn new(stage: &'a Stage, seat: Seat) -> Place<'a>
        requires { IsOf stage.now seat }
    {
        Place { stage, seat }
    }

    /// Makes a call to its end: whether its reply is the one that is wanted, and the number of its ticket, or 0.
    pub(crate) fn call(self, op: &Op, wanted: &Option<Reply>) -> (Place<'a>, bool, u64) {
        let mut place = self;
        let (told, call) = place.ask_all(op, wanted);
        match told {
            Told::Reply(same) => (place, same, 0),
            Told::Ticket(number) => place.resume(op, call, number, wanted),
            Told::Other => place.finish(op, wanted),
        }
    }

    // What the first process says that takes the op, and the number of that ask.
    fn ask_all(&mut self, op: &Op, wanted: &Option<Reply>) -> (Told, u64) {
        'ranks: for rank in 0..RANKS {
            let call = self.seat.asks();
            match self.ask(op, rank, wanted) {
                Told::Other => {}
                told => return (told, call),
            }
        }
        (Told::Other, 0)
    }

    fn ask(&mut self, op: &Op, rank: u32, wanted: &Option<Reply>) -> Told {
        match process_of(self.stage, op, rank) {
            Some(at) => told_by(&self.stage.try_ask(&mut self.seat, op, at), wanted),
            None => Told::Other,
        }
    }

    // Goes on behind a ticket. Its number isn't told if it was lost and the op was asked again.
    fn resume(
        self,
        op: &Op,
        call: u64,
        number: u64,
        wanted: &Option<Reply>,
    ) -> (Place<'a>, bool, u64) {
        let Place { stage, seat } = self;
        if seat.asks() <= call {
            return (Place::new(stage, seat), false, 0);
        }
        let mut caller = StageCaller::new(stage, seat, false);
        let same = is_ended(&caller.resume(op, call), wanted);
        let seat = caller.into_seat();
        let kept = if seat.asks() == call.wrapping_add(1) {
            number
        } else {
            0
        };
        (Place::new(stage, seat), same, kept)
    }

    fn finish(self, op: &Op, wanted: &Option<Reply>) -> (Place<'a>, bool, u64) {
        let Place { stage, seat } = self;
        let mut caller = StageCaller::new(stage, seat, false);
        let same = is_ended(&caller.call(op), wanted);
        (Place::new(stage, caller.into_seat()), same, 0)
    }

    /// Whether a process fails, tried until no other seat holds a node.
    pub(crate) fn fail(&mut self, at: ProcessId) -> bool {
        'tries: for _ in 0..TRIES {
            match self.fail_once(at) {
                Some(made) => return made,
                None => thread::yield_now(),
            }
        }
        false
    }

    // Whether a process fails, or none while another seat holds a node.
    fn fail_once(&mut self, at: ProcessId) -> Option<bool> {
        if !has(self.stage.shape(), at) {
            return Some(false);
        }
        is_failed(&self.stage.try_fail(&mut self.seat, at, 0))
    }
}

// The process of the op's partition that has this rank.
fn process_of(stage: &Stage, op: &Op, rank: u32) -> Option<ProcessId>
    ensures { IfSome result (IsProcess (shape_of stage.now)) }
{
    let shape = stage.shape();
    if rank == 0 {
        Some(ProcessId::DataNode(home(op.act().key(), shape.k()).0))
    } else if rank <= shape.m() {
        Some(ProcessId::ParityNode(rank - 1))
    } else {
        None
    }
}

fn has(shape: Shape, at: ProcessId) -> bool
    ensures { IsTrue result ↔ IsProcess shape at }
{
    match at {
        ProcessId::DataNode(d) => d < shape.k(),
        ProcessId::ParityNode(i) => i < shape.m(),
    }
}

fn told_by(ended: &Result<StageAnswer, AllocError>, wanted: &Option<Reply>) -> Told {
    match ended {
        Ok(StageAnswer::Made(Answer::Reply(reply))) => Told::Reply(is_same(reply, wanted)),
        Ok(StageAnswer::Made(Answer::Ticket(number))) => Told::Ticket(*number),
        _ => Told::Other,
    }
}

fn is_failed(ended: &Result<StageAnswer, AllocError>) -> Option<bool> {
    match ended {
        Ok(StageAnswer::Busy(_)) => None,
        Ok(StageAnswer::Made(Answer::Done)) => Some(true),
        _ => Some(false),
    }
}

/// Whether a call ended with the reply that is wanted.
pub(crate) fn is_ended(end: &Result<CallEnd, AllocError>, wanted: &Option<Reply>) -> bool {
    match end {
        Ok(CallEnd::Reply(reply)) => is_same(reply, wanted),
        _ => false,
    }
}
