ghost use Rattle.std.specs.Prelude.{◌≡◌, []};
ghost use Rattle.group_calls.specs.declared.event.Event.TheVariants as happens;
ghost use Rattle.group_types.specs.Names.{IsProcess};
ghost use Rattle.group_stage.specs.Conditions.{IsIdle};
ghost use Rattle.group_stage.specs.Looked.{HasLooked, IsFoundSo};
ghost use Rattle.group_stage.specs.Seated.{IsOf, shape_of, view_of};

use crate::plays::Calls;
use crate::seat::Seat;
use crate::stage::{RawSeat, Stage};
use group_node::index_of;
use group_types::ProcessId;
use std::marker::Brand;

/// What a look at a link found.
#[derive(Clone, Copy, Debug, PartialEq, Eq)]
pub enum Looked {
    /// A message waits there.
    Waits,
    /// None waits.
    Empty,
    /// Another seat held the node of the sender.
    Busy,
    /// The seat has made all its calls.
    Worn,
}

impl Stage {
    /// Whether a message waits in the link from one process to another. It makes no event.
    pub fn try_look(&self, seat: &mut Seat, from: ProcessId, to: ProcessId) -> Looked
        requires seat { IsOf self.now seat.old }
        requires from { IsProcess (shape_of self.now) from }
        requires to { IsProcess (shape_of self.now) to }
        ensures seat { IsOf self.now seat.new }
        ensures caller { seat.new.caller ≡ seat.old.caller }
        ensures looked { HasLooked from to (view_of seat.old) result (view_of seat.new) }
    {
        if seat.is_worn() {
            return Looked::Worn;
        }
        let looked = self.look_as::<Brand>(&mut seat.raw, from, to);
        seat.calls += 1;
        looked
    }

    // The node of the sender is put back, as after want of memory.
    fn look_as<J: Calls>(&self, seat: &mut RawSeat, from: ProcessId, to: ProcessId) -> Looked
        requires table { seat.old.table_id ≡ self.now.table.shared.table_id }
        requires event { J.event ≡ happens.Deliver from to }
        requires from { IsProcess (shape_of self.now) from }
        requires to { IsProcess (shape_of self.now) to }
        requires shape { seat.old.me.0.shape ≡ self.now.plan.shape }
        requires ready { IsIdle seat.old.me }
        ensures table { seat.new.table_id ≡ seat.old.table_id }
        ensures slots { seat.new.me.1 ≡ [] }
        ensures looked { HasLooked from to seat.old.me.0 result seat.new.me.0 }
    {
        let place = index_of(self.plan.shape, from) as usize;
        let Some(node) = self.take_first::<J>(seat, place) else {
            return Looked::Busy;
        };
        let empty = node.is_empty(to);
        self.put_back(seat, place, node);
        found(empty)
    }
}

// What was found.
fn found(empty: bool) -> Looked
    ensures { IsFoundSo empty result }
{
    if empty { Looked::Empty } else { Looked::Waits }
}
