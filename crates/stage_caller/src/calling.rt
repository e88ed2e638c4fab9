ghost use Rattle.std.specs.Prelude.{◌≡◌, ◌<◌, IfOk, OnErr};
ghost use Rattle.group_stage.specs.Seated.{IsOf, shape_of};
ghost use Rattle.stage_caller.specs.Calling.{IsCalled, IsSeatCutShort, MadeNoEvent, wish_of};
ghost use Rattle.stage_caller.specs.Moving.{CanMake, HasStepped, WasAskedBefore};

use crate::asking::ask;
use crate::collecting::collect;
use crate::heads::Heads;
use crate::helping::help;
use crate::looking::look;
use crate::pausing::pause;
use crate::phase::Phase;
use crate::progress::Progress;
use crate::step::{Move, Step};
use crate::tracing::trace;
use group_stage::{Seat, Stage};
use group_types::{Partition, home};
use memc_proto::CallEnd;
use memc_table::Op;
use std::alloc::AllocError;

/// Makes a call to its end from a phase, beginning at the process that answered last. After want of memory the events
/// that were made before it stand.
pub(crate) fn make_call(
    stage: &Stage,
    seat: &mut Seat,
    heads: &mut Heads,
    op: &Op,
    start: Phase,
) -> Result<CallEnd, AllocError>
    requires seat { IsOf stage.now seat.old }
    requires asked { WasAskedBefore seat.old.asks start }
    ensures seat { IsOf stage.now seat.new }
    ensures called { IfOk result (λ end. IsCalled seat.old op.now start end seat.new) }
    ensures stopped { OnErr result (IsSeatCutShort seat.old op.now start seat.new) }
{
    let shape = stage.shape();
    let partition = home(op.act().key(), shape.k());
    let mut phase = start;
    let mut progress = Progress::new(heads.route(shape, partition), seat.caller());
    'moves: loop {
        let next = progress.next(phase);
        match make(stage, seat, op, partition, phase, next)? {
            Step::Ends(end) => {
                heads.note(&progress.route);
                return Ok(end);
            }
            Step::Goes(to, heard) => {
                progress = progress.after(next, to, heard);
                phase = to;
                pause(progress.rests());
            }
        }
    }
}

// Makes a move of a call.
fn make(
    stage: &Stage,
    seat: &mut Seat,
    op: &Op,
    partition: Partition,
    phase: Phase,
    next: Move,
) -> Result<Step, AllocError>
    requires seat { IsOf stage.now seat.old }
    requires asked { WasAskedBefore seat.old.asks phase }
    requires can { CanMake (shape_of stage.now) phase next }
    requires inside { partition.0 < (shape_of stage.now).k }
    requires home { partition.0 ≡ (wish_of seat.old op.now).home }
    ensures seat { IsOf stage.now seat.new }
    ensures stepped { IfOk result (λ step. HasStepped (wish_of seat.old op.now) phase seat.old step seat.new) }
    ensures paused { OnErr result (MadeNoEvent seat.old seat.new) }
{
    match next {
        Move::Ask(at) => ask(stage, seat, op, at),
        Move::Collect(call, at) => collect(stage, seat, call, at),
        Move::Trace(call, at) => trace(stage, seat, call, partition, at),
        Move::Look(from, to) => Ok(look(stage, seat, phase, from, to)),
        Move::Deliver(from, to) => help(stage, seat, phase, from, to),
    }
}
