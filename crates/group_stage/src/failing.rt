ghost use Rattle.std.specs.Prelude.{◌≡◌, []};
ghost use Rattle.group_calls.specs.declared.event.Event.TheVariants as happens;
ghost use Rattle.group_types.specs.Names.{IsProcess};
ghost use Rattle.group_stage.specs.Conditions.{IsIdle};
ghost use Rattle.group_stage.specs.Ended.{HasEnded};
ghost use Rattle.group_stage.specs.Gathered.{CanFail, Failed};
ghost use Rattle.group_types.specs.Dimensions as limits;
ghost use Rattle.group_stage.specs.Seated.{IsOf, view_of};

use crate::answer::StageAnswer;
use crate::places::processes_of;
use crate::plays::Calls;
use crate::seat::Seat;
use crate::stage::{RawSeat, Stage};
use group_core::{Nodes, fail_at};
use group_node::{Node, process_at};
use group_types::ProcessId;
use std::alloc::AllocError;
use std::marker::Brand;

impl Stage {
    /// A process dies, of whose links each keeps its first `keep` messages. It names every process.
    ///
    /// `AllocError`: no event was made.
    pub fn try_fail(
        &self,
        seat: &mut Seat,
        at: ProcessId,
        keep: u32,
    ) -> Result<StageAnswer, AllocError>
        requires seat { IsOf self.now seat.old }
        requires process { IsProcess self.now.plan.shape at }
        ensures seat { IsOf self.now seat.new }
        ensures caller { seat.new.caller ≡ seat.old.caller }
        ensures ended { HasEnded (happens.Fail at keep) (view_of seat.old) result (view_of seat.new) }
    {
        if seat.is_worn() {
            return Ok(StageAnswer::Worn);
        }
        let ended = self.fail_as::<Brand>(&mut seat.raw, at, keep);
        seat.calls += 1;
        ended
    }

    // Room for all nodes is made once the first is in hand, before any other is taken.
    fn fail_as<J: Calls>(
        &self,
        seat: &mut RawSeat,
        at: ProcessId,
        keep: u32,
    ) -> Result<StageAnswer, AllocError>
        requires table { seat.old.table_id ≡ self.now.table.shared.table_id }
        requires event { J.event ≡ happens.Fail at keep }
        requires process { IsProcess self.now.plan.shape at }
        requires shape { seat.old.me.0.shape ≡ self.now.plan.shape }
        requires ready { IsIdle seat.old.me }
        ensures table { seat.new.table_id ≡ seat.old.table_id }
        ensures slots { seat.new.me.1 ≡ [] }
        ensures ended { HasEnded (happens.Fail at keep) seat.old.me.0 result seat.new.me.0 }
    {
        let Some(first) = self.take_first::<J>(seat, 0) else {
            return Ok(StageAnswer::Busy(process_at(self.plan.shape, 0)));
        };
        match Nodes::with_room(self.alloc, processes_of(self.plan.shape) as u32) {
            Ok(nodes) => Ok(self.fail_all(seat, first, nodes, at, keep)),
            Err(error) => {
                self.put_back(seat, 0, first);
                Err(error)
            }
        }
    }

    // All nodes change, or none where one is held elsewhere.
    fn fail_all(
        &self,
        seat: &mut RawSeat,
        first: Node,
        room: Nodes,
        at: ProcessId,
        keep: u32,
    ) -> StageAnswer
        requires table { seat.old.table_id ≡ self.now.table.shared.table_id }
        requires room { room ≡ record { room = limits.processes_of self.now.plan.shape; nodes = [] } }
        requires can { CanFail self.now.plan at keep seat.old.me first }
        ensures table { seat.new.table_id ≡ seat.old.table_id }
        ensures failed { Failed seat.old.me.0 result seat.new.me }
    {
        let mut nodes = room;
        nodes.push(first);
        if let Some(place) = self.take_rest(seat, &mut nodes) {
            self.put_all(seat, nodes);
            return StageAnswer::Busy(process_at(self.plan.shape, place as u32));
        }
        let answer = fail_at(self.plan.shape, &mut nodes, at, keep);
        self.commit(seat);
        self.put_all(seat, nodes);
        StageAnswer::Made(answer)
    }
}
