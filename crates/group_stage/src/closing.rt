ghost use Rattle.std.specs.Prelude.{◌≡◌, ◌+◌, ◌<◌, ℕ, [], ◌∷◌, List, length, map, IfOk, IfErr, Some, slice_get};
ghost use Rattle.std.specs.Slots.{slots_filled, slots_items, slots_len};
ghost use mathlib.Core.Option as maybe;
ghost use lib.ListN.{get_elem?};
ghost use Rattle.group_calls.specs.declared.event.Event.{Event};
ghost use Rattle.group_types.specs.Dimensions as limits;
ghost use Rattle.group_node.specs.Standing.{NodeStanding};
ghost use Rattle.group_stage.specs.Closed.{HasClosed};
ghost use Rattle.group_stage.specs.Emptied.{AreTaken, HaveNodes};
ghost use Rattle.group_stage.specs.Kept.{IsWholeSchedule};
ghost use Rattle.group_stage.specs.Places as places;
ghost use Rattle.group_stage.specs.Seated.{AreSeatsOf, callers_of, shape_of, view_of};
ghost use Rattle.group_stage.specs.declared.seat.Seat.{Seat};

use crate::places::{processes_of, slot_of};
use crate::plays::Both;
use crate::seats::Seats;
use crate::stage::{RawSeat, Stage};
use atomic_table::Closed;
use group_core::Nodes;
use group_node::Node;
use group_types::Shape;
use std::alloc::{AllocError, Global};

/// There was no memory to close a stage. Both come back as they were.
#[derive(Drop)]
pub struct Unclosed {
    pub stage: Stage,
    pub seats: Seats,
}

impl Stage {
    /// The nodes of all processes, as they stand after the events of the seats.
    pub fn close(self, seats: Seats) -> Result<Nodes, Unclosed>
        requires seats { AreSeatsOf self seats.seats }
        requires all { length seats.seats ≡ callers_of self }
        ensures closed { IfOk result (λ nodes. HasClosed (shape_of self) seats.seats nodes.nodes) }
        ensures unclosed { IfErr result (λ u. (u.stage ≡ self) × (u.seats ≡ seats)) }
    {
        let Ok(nodes) = self.room_for_all() else {
            return Err(Unclosed { stage: self, seats });
        };
        let seat = self.gather(seats);
        Ok(self.taken_apart(seat, nodes))
    }

    // Room for all nodes.
    fn room_for_all(&self) -> Result<Nodes, AllocError>
        ensures { IfOk result (λ nodes. nodes ≡ record { room = limits.processes_of self.now.plan.shape; nodes = [] }) }
    {
        let shape = self.plan.shape;
        Nodes::with_room(self.alloc, shape.k() + shape.m())
    }

    // All seats as one.
    fn gather(&self, seats: Seats) -> RawSeat
        requires seats { AreSeatsOf self.now seats.seats }
        requires all { length seats.seats ≡ self.now.plan.callers }
        ensures table { result.table_id ≡ self.now.table.shared.table_id }
        ensures parts { result.me.0.parts ≡ self.now.plan.callers }
        ensures idle { result.me.0.held ≡ [] }
        ensures whole { (es : List Event) → IsWholeSchedule self.now.plan.shape es (result.me.0 ∷ [])
            → IsWholeSchedule self.now.plan.shape es (map view_of seats.seats) }
    {
        let mut rest = seats;
        let Some(first) = rest.take() else {
            unreachable!()
        };
        let mut all = first.into_raw();
        'seats: while let Some(seat) = rest.take() {
            self.table
                .shared
                .join_seat::<Both>(&mut all, seat.into_raw());
        }
        all
    }

    // The nodes come out of their slots.
    fn taken_apart(self, seat: RawSeat, nodes: Nodes) -> Nodes
        requires table { seat.table_id ≡ self.table.shared.table_id }
        requires parts { seat.me.0.parts ≡ self.plan.callers }
        requires idle { seat.me.0.held ≡ [] }
        requires nodes { nodes ≡ record { room = limits.processes_of self.plan.shape; nodes = [] } }
        ensures { (seats : List Seat) → ((es : List Event) → IsWholeSchedule self.plan.shape es (seat.me.0 ∷ [])
            → IsWholeSchedule self.plan.shape es (map view_of seats)) → HasClosed self.plan.shape seats result.nodes }
    {
        let Stage {
            alloc: _,
            table,
            plan,
        } = self;
        take_nodes(plan.shape, table.close_with(seat), nodes)
    }
}

// Each node comes out of its slot, and the slots are freed.
fn take_nodes(shape: Shape, slots: Closed<Option<Node>, Global>, nodes: Nodes) -> Nodes
    requires full { AreTaken 0 (slots_filled slots.slots) }
    requires flags { length (slots_filled slots.slots) ≡ places.slot_of (limits.processes_of shape) }
    requires many { slots_len slots.slots ≡ places.slot_of (limits.processes_of shape) }
    requires have { HaveNodes (limits.processes_of shape) (slots_items slots.slots) }
    requires nodes { nodes ≡ record { room = limits.processes_of shape; nodes = [] } }
    ensures many { length result.nodes ≡ limits.processes_of shape }
    ensures nodes { (p : ℕ) (y : NodeStanding) → p < limits.processes_of shape
        → get_elem? (slots_items slots.slots) (places.slot_of p) ≡ maybe.some (Some y)
        → slice_get result.nodes p ≡ Some y }
{
    let mut closed = slots;
    let mut taken = nodes;
    let count = processes_of(shape);
    'processes: for p in 0..count {
        let slot = slot_of(shape, p);
        let Some(node) = closed.take(slot) else {
            unreachable!()
        };
        taken.push(node);
        drop(closed.take(slot + 1));
    }
    closed.free();
    taken
}
