ghost use Rattle.std.specs.Prelude.{IfOk, OnErr};
ghost use Rattle.group_types.specs.Names.{IsProcess};
ghost use Rattle.group_stage.specs.Seated.{IsOf, shape_of};
ghost use Rattle.stage_caller.specs.Calling.{MadeNoEvent, asked_to, wish_of};
ghost use Rattle.stage_caller.specs.Moving.{HasStepped, SaysByAnswer};

use crate::phase::{Phase, after_ask};
use crate::step::{Step, heard_of, step_to};
use group_stage::{Seat, Stage, StageAnswer};
use group_types::ProcessId;
use memc_proto::CallEnd;
use memc_table::Op;
use std::alloc::AllocError;

/// Asks the op at a process.
pub(crate) fn ask(
    stage: &Stage,
    seat: &mut Seat,
    op: &Op,
    at: ProcessId,
) -> Result<Step, AllocError>
    requires seat { IsOf stage.now seat.old }
    requires process { IsProcess (shape_of stage.now) at }
    ensures seat { IsOf stage.now seat.new }
    ensures stepped { IfOk result (λ step. HasStepped (wish_of seat.old op.now) Phase.Asks seat.old step seat.new) }
    ensures paused { OnErr result (MadeNoEvent seat.old seat.new) }
{
    let call = seat.asks();
    let ended = stage.try_ask(seat, op, at)?;
    Ok(ask_step(call, ended))
}

// What an ask came to.
fn ask_step(call: u64, ended: StageAnswer) -> Step
    ensures { SaysByAnswer (asked_to call) Phase.Asks ended result }
{
    let heard = heard_of(&ended);
    match ended {
        StageAnswer::Made(answer) => step_to(after_ask(call, answer), heard),
        StageAnswer::Busy(_) => Step::Goes(Phase::Asks, heard),
        StageAnswer::Worn => Step::Ends(CallEnd::Worn),
    }
}
