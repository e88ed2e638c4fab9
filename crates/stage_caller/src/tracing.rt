ghost use Rattle.std.specs.Prelude.{◌≡◌, ◌<◌, IfOk, OnErr};
ghost use Rattle.memc_table.specs.Asked.{Asked};
ghost use Rattle.group_types.specs.Names.{IsProcess};
ghost use Rattle.group_stage.specs.Seated.{IsOf, shape_of};
ghost use Rattle.stage_caller.specs.Calling.{MadeNoEvent, traced_to, wish_of};
ghost use Rattle.stage_caller.specs.Moving.{HasStepped, SaysByAnswer};

use crate::phase::{Phase, after_trace};
use crate::step::{Step, heard_of, step_to};
use group_stage::{Seat, Stage, StageAnswer};
use group_types::{Partition, ProcessId};
use memc_proto::CallEnd;
use std::alloc::AllocError;

/// Traces a ticket at a process, in the partition of its key.
pub(crate) fn trace(
    stage: &Stage,
    seat: &mut Seat,
    call: u64,
    partition: Partition,
    at: ProcessId,
) -> Result<Step, AllocError>
    requires seat { IsOf stage.now seat.old }
    requires process { IsProcess (shape_of stage.now) at }
    requires call { call < seat.old.asks }
    requires partition { partition.0 < (shape_of stage.now).k }
    ensures seat { IsOf stage.now seat.new }
    ensures stepped { IfOk result (λ step. (op : Asked) → partition.0 ≡ (wish_of seat.old op).home
        → HasStepped (wish_of seat.old op) (Phase.Waits call) seat.old step seat.new) }
    ensures paused { OnErr result (MadeNoEvent seat.old seat.new) }
{
    let ended = stage.try_trace(seat, call, partition, at)?;
    Ok(trace_step(call, ended))
}

// What a trace came to.
fn trace_step(call: u64, ended: StageAnswer) -> Step
    ensures { SaysByAnswer (traced_to call) (Phase.Waits call) ended result }
{
    let heard = heard_of(&ended);
    match ended {
        StageAnswer::Made(answer) => step_to(after_trace(call, answer), heard),
        StageAnswer::Busy(_) => Step::Goes(Phase::Waits { call }, heard),
        StageAnswer::Worn => Step::Ends(CallEnd::Worn),
    }
}
