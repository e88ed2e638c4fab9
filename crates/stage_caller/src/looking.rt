ghost use Rattle.memc_table.specs.Asked.{Asked};
ghost use Rattle.group_types.specs.Names.{IsProcess};
ghost use Rattle.group_stage.specs.Seated.{IsOf, shape_of};
ghost use Rattle.stage_caller.specs.Calling.{wish_of};
ghost use Rattle.stage_caller.specs.Moving.{HasStepped, SaysByLook};

use crate::phase::Phase;
use crate::step::{Heard, Step};
use group_stage::{Looked, Seat, Stage};
use group_types::ProcessId;
use memc_proto::CallEnd;

/// Looks whether a message waits in a link, at any phase of a call.
pub(crate) fn look(
    stage: &Stage,
    seat: &mut Seat,
    phase: Phase,
    from: ProcessId,
    to: ProcessId,
) -> Step
    requires seat { IsOf stage.now seat.old }
    requires from { IsProcess (shape_of stage.now) from }
    requires to { IsProcess (shape_of stage.now) to }
    ensures seat { IsOf stage.now seat.new }
    ensures stepped { (op : Asked) → HasStepped (wish_of seat.old op) phase seat.old result seat.new }
{
    look_step(phase, stage.try_look(seat, from, to))
}

// What a look came to.
fn look_step(phase: Phase, looked: Looked) -> Step
    ensures { SaysByLook phase looked result }
{
    match looked {
        Looked::Waits => Step::Goes(phase, Heard::Moves),
        Looked::Empty => Step::Goes(phase, Heard::Nothing),
        Looked::Busy => Step::Goes(phase, Heard::Busy),
        Looked::Worn => Step::Ends(CallEnd::Worn),
    }
}
