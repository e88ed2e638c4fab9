// A process dies between a ticket that it gave and the collect. What its links had delivered or keep decides what
// follows, and a get from a second seat shows that the end told the truth.
ghost use Rattle.std.specs.Prelude.{◌<◌, IfSome};
ghost use Rattle.group_stage.specs.Seated.{IsOf, shape_of};

use crate::callers::acts::{is_stored, reads, set};
use group_calls::Answer;
use group_stage::{Seat, Stage, StageAnswer};
use group_types::{ProcessId, Shape, home};
use memc_table::Op;
use stage_caller::StageCaller;
use std::alloc::{AllocError, Global};
use std::test::Fail;

#[test]
fn a_lost_update_is_asked_again(rt: HostRuntime) -> Result<(), Fail> {
    assert!(rt; ends_truly(rt.alloc(), (0, 0), true));
    Ok(())
}

#[test]
fn a_waiting_update_is_waited_for(rt: HostRuntime) -> Result<(), Fail> {
    assert!(rt; ends_truly(rt.alloc(), (0, 1), false));
    assert!(rt; ends_truly(rt.alloc(), (1, 0), false));
    assert!(rt; ends_truly(rt.alloc(), (2, 0), false));
    Ok(())
}

#[test]
fn a_settled_update_is_told(rt: HostRuntime) -> Result<(), Fail> {
    assert!(rt; ends_truly(rt.alloc(), (4, 0), false));
    Ok(())
}

// Whether a set ends as stored and is read, asked again or not, whose head dies after so many steps of the update and
// whose links keep so many messages each.
fn ends_truly(alloc: Global, loss: (u32, u32), again: bool) -> bool {
    let Ok(shape) = Shape::new(2, 2, 4, 16) else {
        return false;
    };
    let Some(op) = set(alloc, b"a".as_slice(), b"b".as_slice()) else {
        return false;
    };
    let told = is_told(alloc, shape, &op, loss, again);
    drop(op);
    told
}

fn is_told(alloc: Global, shape: Shape, op: &Op, loss: (u32, u32), again: bool) -> bool {
    let Ok((stage, mut seats)) = Stage::new(alloc, shape, 2) else {
        return false;
    };
    let Some(one) = seats.take() else {
        return false;
    };
    let Some(other) = seats.take() else {
        return false;
    };
    tells(alloc, &stage, (one, other), op, loss, again)
}

fn tells(
    alloc: Global,
    stage: &Stage,
    seats: (Seat, Seat),
    op: &Op,
    loss: (u32, u32),
    again: bool,
) -> bool
    requires one { IsOf stage.now seats.0 }
    requires other { IsOf stage.now seats.1 }
{
    let (mut one, mut other) = seats;
    let head = home(op.act().key(), stage.shape().k()).0;
    let Some(call) = ticket(stage, &mut one, op, head) else {
        return false;
    };
    let lost = loses(stage, &mut other, head, loss);
    let told = ends(stage, one, op, call, again);
    let mut reader = StageCaller::new(stage, other, false);
    lost && told && reads(alloc, &mut reader, b"a".as_slice(), b"b".as_slice())
}

// The number of the ask, where the data process gives it a ticket.
fn ticket(stage: &Stage, seat: &mut Seat, op: &Op, head: u32) -> Option<u64>
    requires seat { IsOf stage.now seat.old }
    requires data { head < (shape_of stage.now).k }
    ensures seat { IsOf stage.now seat.new }
    ensures asked { IfSome result (λ call. call < seat.new.asks) }
{
    let call = seat.asks();
    let given = is_ticket(&stage.try_ask(seat, op, ProcessId::DataNode(head)));
    if given && call < seat.asks() {
        Some(call)
    } else {
        None
    }
}

fn is_ticket(ended: &Result<StageAnswer, AllocError>) -> bool {
    matches!(ended, Ok(StageAnswer::Made(Answer::Ticket(_))))
}

fn is_done(ended: &Result<StageAnswer, AllocError>) -> bool {
    matches!(ended, Ok(StageAnswer::Made(Answer::Done)))
}

// Whether the call ends as stored, asked again or not.
fn ends(stage: &Stage, seat: Seat, op: &Op, call: u64, again: bool) -> bool
    requires seat { IsOf stage.now seat }
    requires asked { call < seat.asks }
{
    let mut caller = StageCaller::new(stage, seat, false);
    let stored = is_stored(&caller.resume(op, call));
    stored && (1 < caller.into_seat().asks()) == again
}

// Whether the head dies after so many steps of its update: received by each parity process, and acknowledged to it.
fn loses(stage: &Stage, other: &mut Seat, head: u32, loss: (u32, u32)) -> bool
    requires seat { IsOf stage.now other.old }
    requires data { head < (shape_of stage.now).k }
    ensures { IsOf stage.now other.new }
{
    let (steps, keep) = loss;
    let mut good = true;
    if 0 < steps {
        good &= moves(stage, other, head, 0);
    }
    if 1 < steps {
        good &= moves(stage, other, head, 1);
    }
    if 2 < steps {
        good &= returns(stage, other, head, 0);
        good &= returns(stage, other, head, 1);
    }
    is_done(&stage.try_fail(other, ProcessId::DataNode(head), keep)) && good
}

fn moves(stage: &Stage, other: &mut Seat, head: u32, i: u32) -> bool
    requires seat { IsOf stage.now other.old }
    requires data { head < (shape_of stage.now).k }
    ensures { IsOf stage.now other.new }
{
    if stage.shape().m() <= i {
        return false;
    }
    is_done(&stage.try_deliver(other, ProcessId::DataNode(head), ProcessId::ParityNode(i)))
}

fn returns(stage: &Stage, other: &mut Seat, head: u32, i: u32) -> bool
    requires seat { IsOf stage.now other.old }
    requires data { head < (shape_of stage.now).k }
    ensures { IsOf stage.now other.new }
{
    if stage.shape().m() <= i {
        return false;
    }
    is_done(&stage.try_deliver(other, ProcessId::ParityNode(i), ProcessId::DataNode(head)))
}
