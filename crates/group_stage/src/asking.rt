ghost use Rattle.std.specs.Prelude.{◌≡◌, ◌<◌, [], ◌∷◌, OnErr};
ghost use Rattle.group_calls.specs.declared.event.Event.TheVariants as happens;
ghost use Rattle.group_types.specs.Dimensions.{callers};
ghost use Rattle.group_types.specs.Names.{IsProcess};
ghost use Rattle.group_stage.specs.Conditions.{IsIdle};
ghost use Rattle.group_stage.specs.Ended.{HasEnded, WasUp};
ghost use Rattle.group_stage.specs.Seated as made;
ghost use Rattle.group_stage.specs.Seated.{IsOf, shape_of, view_of};
ghost use Rattle.group_stage.specs.Views.{asks_by};

use crate::answer::StageAnswer;
use crate::plays::Calls;
use crate::seat::Seat;
use crate::stage::{RawSeat, Stage};
use group_node::index_of;
use group_types::ProcessId;
use head_service::Call;
use memc_table::{Op, values_are_bytes};
use std::alloc::AllocError;
use std::marker::Brand;

impl Stage {
    /// A call is asked at a process. Its number is that of the seat's asks before.
    ///
    /// `AllocError`: no event was made, and the group was up and the process living.
    pub fn try_ask(
        &self,
        seat: &mut Seat,
        op: &Op,
        at: ProcessId,
    ) -> Result<StageAnswer, AllocError>
        requires seat { IsOf self.now seat.old }
        requires process { IsProcess (shape_of self.now) at }
        ensures seat { IsOf self.now seat.new }
        ensures caller { seat.new.caller ≡ seat.old.caller }
        ensures ended { HasEnded (happens.Ask seat.old.caller op.now at) (view_of seat.old) result (view_of seat.new) }
        ensures wanted { OnErr result (WasUp (view_of seat.old) at) }
    {
        if seat.is_worn() {
            return Ok(StageAnswer::Worn);
        }
        let call = Call {
            caller: seat.caller,
            number: seat.asks,
        };
        let ended = self.ask_as::<Brand>(&mut seat.raw, call, op, at);
        seat.calls += 1;
        seat.asks += made_in(&ended);
        ended
    }

    fn ask_as<J: Calls>(
        &self,
        seat: &mut RawSeat,
        call: Call,
        op: &Op,
        at: ProcessId,
    ) -> Result<StageAnswer, AllocError>
        requires table { seat.old.table_id ≡ self.now.table.shared.table_id }
        requires event { J.event ≡ happens.Ask call.caller op.now at }
        requires process { IsProcess (shape_of self.now) at }
        requires shape { seat.old.me.0.shape ≡ self.now.plan.shape }
        requires ready { IsIdle seat.old.me }
        requires caller { call.caller < callers }
        requires own { seat.old.me.0.numbers ≡ call.caller ∷ [] }
        requires number { call.number ≡ asks_by call.caller seat.old.me.0.made }
        ensures table { seat.new.table_id ≡ seat.old.table_id }
        ensures slots { seat.new.me.1 ≡ [] }
        ensures ended { HasEnded (happens.Ask call.caller op.now at) seat.old.me.0 result seat.new.me.0 }
        ensures wanted { OnErr result (WasUp seat.old.me.0 at) }
    {
        values_are_bytes(op.act());
        let place = index_of(self.plan.shape, at) as usize;
        let Some(mut node) = self.take_first::<J>(seat, place) else {
            return Ok(StageAnswer::Busy(at));
        };
        match node.ask(call, op) {
            Ok(out) => {
                self.finish(seat, place, node);
                Ok(StageAnswer::Made(out.answer))
            }
            Err(error) => {
                self.put_back(seat, place, node);
                Err(error)
            }
        }
    }
}

// 1 for an event that was made.
fn made_in(ended: &Result<StageAnswer, AllocError>) -> u64
    ensures { result ≡ made.made_in ended.now }
{
    match ended {
        Ok(StageAnswer::Made(_)) => 1,
        _ => 0,
    }
}
