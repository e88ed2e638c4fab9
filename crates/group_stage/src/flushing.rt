ghost use Rattle.std.specs.Prelude.{◌≡◌, ◌<◌, [], OnErr};
ghost use Rattle.group_calls.specs.declared.event.Event.TheVariants as happens;
ghost use Rattle.group_types.specs.Names.{IsProcess};
ghost use Rattle.group_stage.specs.Conditions.{IsIdle};
ghost use Rattle.group_stage.specs.Ended.{HasEnded, WasUp};
ghost use Rattle.group_stage.specs.Seated.{IsOf, shape_of, view_of};

use crate::answer::StageAnswer;
use crate::plays::Calls;
use crate::seat::Seat;
use crate::stage::{RawSeat, Stage};
use group_node::index_of;
use group_types::ProcessId;
use std::alloc::AllocError;
use std::marker::Brand;

impl Stage {
    /// A process tells the others how far it has settled.
    ///
    /// `AllocError`: no event was made, and the group was up and the process living.
    pub fn try_flush(&self, seat: &mut Seat, at: ProcessId) -> Result<StageAnswer, AllocError>
        requires seat { IsOf self.now seat.old }
        requires process { IsProcess (shape_of self.now) at }
        ensures seat { IsOf self.now seat.new }
        ensures caller { seat.new.caller ≡ seat.old.caller }
        ensures ended { HasEnded (happens.Flush at) (view_of seat.old) result (view_of seat.new) }
        ensures wanted { OnErr result (WasUp (view_of seat.old) at) }
    {
        if seat.is_worn() {
            return Ok(StageAnswer::Worn);
        }
        let ended = self.flush_as::<Brand>(&mut seat.raw, at);
        seat.calls += 1;
        ended
    }

    fn flush_as<J: Calls>(
        &self,
        seat: &mut RawSeat,
        at: ProcessId,
    ) -> Result<StageAnswer, AllocError>
        requires table { seat.old.table_id ≡ self.now.table.shared.table_id }
        requires event { J.event ≡ happens.Flush at }
        requires process { IsProcess (shape_of self.now) at }
        requires shape { seat.old.me.0.shape ≡ self.now.plan.shape }
        requires ready { IsIdle seat.old.me }
        ensures table { seat.new.table_id ≡ seat.old.table_id }
        ensures slots { seat.new.me.1 ≡ [] }
        ensures ended { HasEnded (happens.Flush at) seat.old.me.0 result seat.new.me.0 }
        ensures wanted { OnErr result (WasUp seat.old.me.0 at) }
    {
        let place = index_of(self.plan.shape, at) as usize;
        let Some(mut node) = self.take_first::<J>(seat, place) else {
            return Ok(StageAnswer::Busy(at));
        };
        match node.flush() {
            Ok(out) => {
                self.finish(seat, place, node);
                Ok(StageAnswer::Made(out.answer))
            }
            Err(error) => {
                self.put_back(seat, place, node);
                Err(error)
            }
        }
    }
}
