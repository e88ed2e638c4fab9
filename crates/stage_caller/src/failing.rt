ghost use Rattle.std.specs.Prelude.{◌≡◌, ◌↔◌, IsTrue, Some, IfOk, OnErr};
ghost use Rattle.group_types.specs.Names.{IsProcess};
ghost use Rattle.group_stage.specs.Seated.{IsOf, shape_of};
ghost use Rattle.stage_caller.specs.Calling.{MadeNoEvent};
ghost use Rattle.stage_caller.specs.Failing.{IsFailAnswer, IsFailed, failed_to};

use group_calls::Answer;
use group_stage::{Seat, Stage, StageAnswer};
use group_types::{ProcessId, Shape};
use memc_proto::FailEnd;
use std::alloc::AllocError;
use std::thread;

/// Lets a process fail, once no other seat holds a node.
pub(crate) fn fail_process(
    stage: &Stage,
    seat: &mut Seat,
    at: ProcessId,
    keep: u32,
) -> Result<FailEnd, AllocError>
    requires seat { IsOf stage.now seat.old }
    requires process { IsProcess (shape_of stage.now) at }
    ensures seat { IsOf stage.now seat.new }
    ensures failed { IfOk result (λ end. IsFailed seat.old at keep end seat.new) }
    ensures idle { OnErr result (MadeNoEvent seat.old seat.new) }
{
    'tries: loop {
        match stage.try_fail(seat, at, keep)? {
            StageAnswer::Made(answer) => return Ok(end_of(answer)),
            StageAnswer::Busy(_) => thread::yield_now(),
            StageAnswer::Worn => return Ok(FailEnd::Worn),
        }
    }
}

// How an order ends that made its event, by the answer.
fn end_of(answer: Answer) -> FailEnd
    requires { IsFailAnswer answer }
    ensures { failed_to answer ≡ Some result }
{
    match answer {
        Answer::Done => FailEnd::Made,
        Answer::AlreadyDead => FailEnd::AlreadyDead,
        _ => unreachable!(),
    }
}

/// Whether the group has the process.
pub(crate) fn has(shape: Shape, at: ProcessId) -> bool
    ensures { IsTrue result ↔ IsProcess shape at }
{
    match at {
        ProcessId::DataNode(d) => d < shape.k(),
        ProcessId::ParityNode(i) => i < shape.m(),
    }
}
