ghost use Rattle.std.specs.Prelude.{◌≡◌, ◌<◌, [], IsOk};
ghost use Rattle.group_calls.specs.declared.event.Event.TheVariants as happens;
ghost use Rattle.group_types.specs.Dimensions.{callers};
ghost use Rattle.group_types.specs.Names.{IsProcess};
ghost use Rattle.group_stage.specs.Conditions.{IsIdle};
ghost use Rattle.group_stage.specs.Ended.{Ended, HasEnded};
ghost use Rattle.group_stage.specs.Seated.{IsOf, shape_of, view_of};

use crate::answer::StageAnswer;
use crate::plays::Calls;
use crate::seat::Seat;
use crate::stage::{RawSeat, Stage};
use group_node::index_of;
use group_types::ProcessId;
use std::alloc::AllocError;
use std::marker::Brand;

impl Stage {
    /// What became of a call of the seat, at the process that issued its update. It takes no memory, and never fails.
    pub fn try_collect(
        &self,
        seat: &mut Seat,
        call: u64,
        at: ProcessId,
    ) -> Result<StageAnswer, AllocError>
        requires seat { IsOf self.now seat.old }
        requires process { IsProcess (shape_of self.now) at }
        ensures seat { IsOf self.now seat.new }
        ensures caller { seat.new.caller ≡ seat.old.caller }
        ensures ended { HasEnded (happens.Collect seat.old.caller call at) (view_of seat.old) result
            (view_of seat.new) }
        ensures succeeds { IsOk result }
    {
        if seat.is_worn() {
            return Ok(StageAnswer::Worn);
        }
        let ended = self.collect_as::<Brand>(&mut seat.raw, seat.caller, call, at);
        seat.calls += 1;
        Ok(ended)
    }

    fn collect_as<J: Calls>(
        &self,
        seat: &mut RawSeat,
        caller: u32,
        call: u64,
        at: ProcessId,
    ) -> StageAnswer
        requires table { seat.old.table_id ≡ self.now.table.shared.table_id }
        requires event { J.event ≡ happens.Collect caller call at }
        requires process { IsProcess (shape_of self.now) at }
        requires shape { seat.old.me.0.shape ≡ self.now.plan.shape }
        requires ready { IsIdle seat.old.me }
        requires caller { caller < callers }
        ensures table { seat.new.table_id ≡ seat.old.table_id }
        ensures slots { seat.new.me.1 ≡ [] }
        ensures ended { Ended (happens.Collect caller call at) seat.old.me.0 result seat.new.me.0 }
    {
        let place = index_of(self.plan.shape, at) as usize;
        let Some(mut node) = self.take_first::<J>(seat, place) else {
            return StageAnswer::Busy(at);
        };
        let answer = node.collect(caller, call);
        self.finish(seat, place, node);
        StageAnswer::Made(answer)
    }
}
