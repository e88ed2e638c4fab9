ghost use Rattle.std.specs.Prelude.{◌≡◌, ◌<◌, [], ◌∷◌, IsOk};
ghost use Rattle.group_calls.specs.declared.event.Event.TheVariants as happens;
ghost use Rattle.group_types.specs.Dimensions.{callers};
ghost use Rattle.group_types.specs.Names.{IsProcess};
ghost use Rattle.group_stage.specs.Conditions.{IsIdle};
ghost use Rattle.group_stage.specs.Ended.{Ended, HasEnded};
ghost use Rattle.group_stage.specs.Seated.{IsOf, shape_of, view_of};
ghost use Rattle.group_stage.specs.Views.{asks_by};

use crate::answer::StageAnswer;
use crate::plays::Calls;
use crate::seat::Seat;
use crate::stage::{RawSeat, Stage};
use group_node::index_of;
use group_types::{Partition, ProcessId};
use std::alloc::AllocError;
use std::marker::Brand;

impl Stage {
    /// Whether a call of the seat made an update in the partition.
    pub fn try_trace(
        &self,
        seat: &mut Seat,
        call: u64,
        partition: Partition,
        at: ProcessId,
    ) -> Result<StageAnswer, AllocError>
        requires seat { IsOf self.now seat.old }
        requires process { IsProcess (shape_of self.now) at }
        requires call { call < seat.old.asks }
        requires partition { partition.0 < (shape_of self.now).k }
        ensures seat { IsOf self.now seat.new }
        ensures caller { seat.new.caller ≡ seat.old.caller }
        ensures ended { HasEnded (happens.Trace seat.old.caller call partition at) (view_of seat.old) result
            (view_of seat.new) }
        ensures succeeds { IsOk result }
    {
        if seat.is_worn() {
            return Ok(StageAnswer::Worn);
        }
        let ended = self.trace_as::<Brand>(&mut seat.raw, seat.caller, call, partition, at);
        seat.calls += 1;
        Ok(ended)
    }

    fn trace_as<J: Calls>(
        &self,
        seat: &mut RawSeat,
        caller: u32,
        call: u64,
        partition: Partition,
        at: ProcessId,
    ) -> StageAnswer
        requires table { seat.old.table_id ≡ self.now.table.shared.table_id }
        requires event { J.event ≡ happens.Trace caller call partition at }
        requires process { IsProcess (shape_of self.now) at }
        requires shape { seat.old.me.0.shape ≡ self.now.plan.shape }
        requires ready { IsIdle seat.old.me }
        requires caller { caller < callers }
        requires own { seat.old.me.0.numbers ≡ caller ∷ [] }
        requires call { call < asks_by caller seat.old.me.0.made }
        requires partition { partition.0 < (shape_of self.now).k }
        ensures table { seat.new.table_id ≡ seat.old.table_id }
        ensures slots { seat.new.me.1 ≡ [] }
        ensures ended { Ended (happens.Trace caller call partition at) seat.old.me.0 result seat.new.me.0 }
    {
        let place = index_of(self.plan.shape, at) as usize;
        let Some(node) = self.take_first::<J>(seat, place) else {
            return StageAnswer::Busy(at);
        };
        let answer = node.trace(caller, call, partition);
        self.finish(seat, place, node);
        StageAnswer::Made(answer)
    }
}
