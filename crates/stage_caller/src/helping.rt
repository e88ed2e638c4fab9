ghost use Rattle.std.specs.Prelude.{◌≢◌, IfOk, OnErr};
ghost use Rattle.memc_table.specs.Asked.{Asked};
ghost use Rattle.group_types.specs.Names.{IsProcess};
ghost use Rattle.group_calls.specs.declared.event.Answer.{Answer};
ghost use Rattle.group_stage.specs.Seated.{IsOf, shape_of};
ghost use Rattle.stage_caller.specs.Calling.{MadeNoEvent, wish_of};
ghost use Rattle.stage_caller.specs.Moving.{HasStepped, SaysByAnswer};

use crate::phase::{Next, Phase};
use crate::step::{Step, heard_of};
use group_stage::{Seat, Stage, StageAnswer};
use group_types::ProcessId;
use memc_proto::CallEnd;
use std::alloc::AllocError;

/// Delivers the first message of a link, at any phase of a call.
pub(crate) fn help(
    stage: &Stage,
    seat: &mut Seat,
    phase: Phase,
    from: ProcessId,
    to: ProcessId,
) -> Result<Step, AllocError>
    requires seat { IsOf stage.now seat.old }
    requires from { IsProcess (shape_of stage.now) from }
    requires to { IsProcess (shape_of stage.now) to }
    requires apart { from ≢ to }
    ensures seat { IsOf stage.now seat.new }
    ensures stepped { IfOk result (λ step. (op : Asked)
        → HasStepped (wish_of seat.old op) phase seat.old step seat.new) }
    ensures paused { OnErr result (MadeNoEvent seat.old seat.new) }
{
    let ended = stage.try_deliver(seat, from, to)?;
    Ok(help_step(phase, ended))
}

// What a delivery came to.
fn help_step(phase: Phase, ended: StageAnswer) -> Step
    ensures { SaysByAnswer (λ (a : Answer). Next.Goes phase) phase ended result }
{
    let heard = heard_of(&ended);
    match ended {
        StageAnswer::Made(_) | StageAnswer::Busy(_) => Step::Goes(phase, heard),
        StageAnswer::Worn => Step::Ends(CallEnd::Worn),
    }
}
