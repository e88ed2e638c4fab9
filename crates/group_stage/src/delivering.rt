ghost use Rattle.std.specs.Prelude.{◌≡◌, ◌≢◌, ◌<◌, ◌↔◌, ℕ, [], List, false, IfOk, IsTrue, OnErr};
ghost use Rattle.group_calls.specs.declared.event.Event.{Event};
ghost use Rattle.group_calls.specs.declared.event.Event.TheVariants as happens;
ghost use Rattle.group_types.specs.Dimensions.{Dimensions};
ghost use Rattle.group_types.specs.Names as names;
ghost use Rattle.group_types.specs.Names.{IsProcess};
ghost use Rattle.group_core.specs.Pairs.{Delivered};
ghost use Rattle.group_stage.specs.Conditions.{CanFinishTwo, HasTwo, IsIdle};
ghost use Rattle.group_stage.specs.Ended.{HasEnded, WasUp};
ghost use Rattle.group_stage.specs.Order.{TookInOrder};
ghost use Rattle.group_stage.specs.Pairing.{CanDeliver, one_of, other_of};
ghost use Rattle.group_stage.specs.Seated.{IsOf, shape_of, view_of};
ghost use Rattle.group_stage.specs.Steps.{Knows};
ghost use Rattle.group_stage.specs.Views.{committed, released};

use crate::answer::StageAnswer;
use crate::plays::Calls;
use crate::seat::Seat;
use crate::stage::{RawSeat, Stage};
use group_node::{Node, NodeOut, deliver_between, index_of};
use group_types::{ProcessId, Shape};
use std::alloc::AllocError;
use std::marker::Brand;

impl Stage {
    /// The first message from one process to another is received.
    ///
    /// `AllocError`: no event was made, and the group was up and the receiver living.
    pub fn try_deliver(
        &self,
        seat: &mut Seat,
        from: ProcessId,
        to: ProcessId,
    ) -> Result<StageAnswer, AllocError>
        requires seat { IsOf self.now seat.old }
        requires from { IsProcess (shape_of self.now) from }
        requires to { IsProcess (shape_of self.now) to }
        requires apart { from ≢ to }
        ensures seat { IsOf self.now seat.new }
        ensures caller { seat.new.caller ≡ seat.old.caller }
        ensures ended { HasEnded (happens.Deliver from to) (view_of seat.old) result (view_of seat.new) }
        ensures order { TookInOrder (view_of seat.old) result (view_of seat.new) }
        ensures wanted { OnErr result (WasUp (view_of seat.old) to) }
    {
        if seat.is_worn() {
            return Ok(StageAnswer::Worn);
        }
        let ended = self.deliver_as::<Brand>(&mut seat.raw, from, to);
        seat.calls += 1;
        ended
    }

    // The nodes are taken in the order of processes, so that of two calls with the same nodes one goes on.
    fn deliver_as<J: Calls>(
        &self,
        seat: &mut RawSeat,
        from: ProcessId,
        to: ProcessId,
    ) -> Result<StageAnswer, AllocError>
        requires table { seat.old.table_id ≡ self.now.table.shared.table_id }
        requires event { J.event ≡ happens.Deliver from to }
        requires from { IsProcess (shape_of self.now) from }
        requires to { IsProcess (shape_of self.now) to }
        requires apart { from ≢ to }
        requires shape { seat.old.me.0.shape ≡ self.now.plan.shape }
        requires ready { IsIdle seat.old.me }
        ensures table { seat.new.table_id ≡ seat.old.table_id }
        ensures slots { seat.new.me.1 ≡ [] }
        ensures ended { HasEnded (happens.Deliver from to) seat.old.me.0 result seat.new.me.0 }
        ensures order { TookInOrder seat.old.me.0 result seat.new.me.0 }
        ensures wanted { OnErr result (WasUp seat.old.me.0 to) }
    {
        let up = is_before(self.plan.shape, from, to);
        let (one, other) = in_order(up, from, to);
        let low = index_of(self.plan.shape, one) as usize;
        let Some(mut first) = self.take_first::<J>(seat, low) else {
            return Ok(StageAnswer::Busy(one));
        };
        let high = index_of(self.plan.shape, other) as usize;
        let Some(mut second) = self.take_next(seat, high) else {
            self.put_back(seat, low, first);
            return Ok(StageAnswer::Busy(other));
        };
        match deliver_in_order(up, &mut first, &mut second) {
            Ok(out) => {
                self.finish_two(seat, low, high, first, second);
                Ok(StageAnswer::Made(out.answer))
            }
            Err(error) => {
                self.put_two_back(seat, low, high, first, second);
                Err(error)
            }
        }
    }

    // A call of two processes becomes an event, and both nodes go back.
    fn finish_two(&self, seat: &mut RawSeat, low: usize, high: usize, first: Node, second: Node)
        requires table { seat.old.table_id ≡ self.now.table.shared.table_id }
        requires can { CanFinishTwo self.now.plan seat.old.me low high first second }
        ensures table { seat.new.table_id ≡ seat.old.table_id }
        ensures finished { (es : List Event) × Knows es seat.old.me.0
            × ((f : ℕ) × (g : ℕ) × (seat.new.me
            ≡ (released (released (committed es seat.old.me.0) high f) low g, []))) }
    {
        self.commit(seat);
        self.put_two_back(seat, low, high, first, second);
    }

    // Both nodes go back, in the opposite order.
    fn put_two_back(&self, seat: &mut RawSeat, low: usize, high: usize, first: Node, second: Node)
        requires table { seat.old.table_id ≡ self.now.table.shared.table_id }
        requires last { HasTwo self.now.plan seat.old.me low high first second }
        ensures table { seat.new.table_id ≡ seat.old.table_id }
        ensures released { (f : ℕ) × (g : ℕ) × (seat.new.me ≡ (released (released seat.old.me.0 high f) low g, [])) }
    {
        self.put_back(seat, high, second);
        self.put_back(seat, low, first);
    }
}

// Whether a process comes before another: the data processes by their indices, and behind them the parity processes.
fn is_before(shape: Shape, one: ProcessId, other: ProcessId) -> bool
    requires one { IsProcess shape one }
    requires other { IsProcess shape other }
    ensures before { IsTrue result ↔ (names.index_of shape one < names.index_of shape other) }
{
    index_of(shape, one) < index_of(shape, other)
}

// The sender and the receiver, or turned.
fn in_order(up: bool, from: ProcessId, to: ProcessId) -> (ProcessId, ProcessId)
    ensures one { result.0 ≡ one_of up from to }
    ensures other { result.1 ≡ other_of up from to }
    ensures processes { (s : Dimensions) → IsProcess s from → IsProcess s to
        → IsProcess s result.0 × IsProcess s result.1 }
{
    if up { (from, to) } else { (to, from) }
}

// The first node sends and the second receives, or turned.
fn deliver_in_order(up: bool, first: &mut Node, second: &mut Node) -> Result<NodeOut, AllocError>
    requires can { CanDeliver (one_of up first.old second.old) (other_of up first.old second.old) }
    ensures delivered { IfOk result (Delivered (one_of up first.old second.old) (other_of up first.old second.old)
        (one_of up first.new second.new) (other_of up first.new second.new)) }
    ensures down { OnErr result ((other_of up first.old second.old).node.down ≡ false) }
    ensures dead { OnErr result ((other_of up first.old second.old).node.dead ≡ false) }
    ensures first { OnErr result (first.new ≡ first.old) }
    ensures second { OnErr result (second.new ≡ second.old) }
{
    if up {
        deliver_between(first, second)
    } else {
        deliver_between(second, first)
    }
}
