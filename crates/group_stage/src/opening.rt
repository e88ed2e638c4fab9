ghost use Rattle.std.specs.Prelude.{◌≡◌, ◌+◌, ◌-◌, ◌*◌, ◌≤◌, ◌<◌, [], length, IfOk, Some, None};
ghost use Rattle.std.specs.Vec.{vec_capacity};
ghost use Rattle.group_types.specs.Dimensions as limits;
ghost use Rattle.group_stage.specs.Conditions.{CanDraw};
ghost use Rattle.group_stage.specs.Dealt.{AreNew, IsNew};
ghost use Rattle.group_stage.specs.Opened.{AreLaid};
ghost use Rattle.group_stage.specs.Seated.{AreSeatsOf};
ghost use Rattle.group_stage.specs.Views.{blank, numbered};

use crate::places::{processes_of, word_of};
use crate::plays::{Draw, Part};
use crate::seat::Seat;
use crate::seats::Seats;
use crate::stage::{RawSeat, Stage};
use crate::view::Plan;
use atomic_table::{Refused, Table};
use group_node::{Node, process_at};
use group_types::Shape;
use std::alloc::{AllocError, Global};

impl Stage {
    /// A group at the start, for so many callers. The seat in place i has the caller number i.
    pub fn new(alloc: Global, shape: Shape, callers: u32) -> Result<(Stage, Seats), AllocError>
        requires some { 0 < callers }
        requires few { callers ≤ limits.callers }
        ensures plan { IfOk result (λ r. r.0.plan ≡ record { shape = shape; callers = callers }) }
        ensures made { IfOk result (λ r. r.1.made ≡ callers) }
        ensures all { IfOk result (λ r. length r.1.seats ≡ callers) }
        ensures new { IfOk result (λ r. AreNew r.0 r.1.seats) }
        ensures of_stage { IfOk result (λ r. AreSeatsOf r.0 r.1.seats) }
    {
        let seats = Vec::with_capacity(alloc, callers as usize)?;
        let plan = Plan { shape, callers };
        let (stage, raw) = Stage::laid(alloc, plan)?;
        let seats = stage.deal(raw, seats);
        Ok((
            stage,
            Seats {
                made: callers,
                seats,
            },
        ))
    }

    // The words and the nodes, and the right to all steps.
    fn laid(alloc: Global, plan: Plan) -> Result<(Stage, RawSeat), AllocError>
        requires some { 0 < plan.callers }
        requires few { plan.callers ≤ limits.callers }
        ensures plan { IfOk result (λ r. r.0.plan ≡ plan) }
        ensures table { IfOk result (λ r. r.1.table_id ≡ r.0.table.shared.table_id) }
        ensures seat { IfOk result (λ r. r.1.me ≡ (blank plan.shape plan.callers 1 0, [])) }
    {
        let count = processes_of(plan.shape);
        let words = vec![in alloc; 0; (count + 2) * 8]?;
        let slots = lay_nodes(alloc, plan.shape)?;
        match Table::new(alloc, words.as_slice(), slots, &plan) {
            Ok((table, raw)) => Ok((Stage { alloc, table, plan }, raw)),
            Err(Refused { slots }) => {
                drop(slots);
                Err(AllocError)
            }
        }
    }

    // Each caller number is drawn by a seat of its own.
    fn deal(&self, first: RawSeat, mut seats: Vec<Seat>) -> Vec<Seat>
        requires table { first.table_id ≡ self.now.table.shared.table_id }
        requires seat { first.me ≡ (blank self.now.plan.shape self.now.plan.callers 1 0, []) }
        requires few { self.now.plan.callers ≤ limits.callers }
        requires none { seats.items ≡ [] }
        requires room { self.now.plan.callers ≤ vec_capacity seats }
        ensures many { length result.items ≡ self.now.plan.callers }
        ensures room { self.now.plan.callers ≤ vec_capacity result }
        ensures new { AreNew self.now result.items }
        ensures of_stage { AreSeatsOf self.now result.items }
    {
        let mut raw = first;
        'callers: for number in 1..self.plan.callers {
            let (seat, next) = self.part(raw);
            seats.push_reserved(seat);
            raw = next;
        }
        seats.push_reserved(self.last(raw));
        seats
    }

    // A seat draws its caller number, and the rest of all parts goes to the next one.
    fn part(&self, first: RawSeat) -> (Seat, RawSeat)
        requires table { first.table_id ≡ self.now.table.shared.table_id }
        requires seat { first.me ≡ (blank self.now.plan.shape first.me.0.parts 1 first.me.0.next, []) }
        requires parts { 1 < first.me.0.parts }
        requires low { first.me.0.next < limits.callers }
        ensures seat { IsNew self.now result.0 first.me.0.next }
        ensures table { result.1.table_id ≡ self.now.table.shared.table_id }
        ensures rest { result.1.me ≡ (blank self.now.plan.shape (first.me.0.parts - 1) 1 (first.me.0.next + 1), []) }
    {
        let mut raw = first;
        let caller = self.draw_number(&mut raw);
        let next = self.table.shared.split_seat::<Part>(&mut raw);
        (
            Seat {
                raw,
                caller,
                calls: 0,
                asks: 0,
            },
            next,
        )
    }

    // The last seat draws its caller number.
    fn last(&self, first: RawSeat) -> Seat
        requires table { first.table_id ≡ self.now.table.shared.table_id }
        requires seat { first.me ≡ (blank self.now.plan.shape 1 1 first.me.0.next, []) }
        requires low { first.me.0.next < limits.callers }
        ensures { IsNew self.now result first.me.0.next }
    {
        let mut raw = first;
        let caller = self.draw_number(&mut raw);
        Seat {
            raw,
            caller,
            calls: 0,
            asks: 0,
        }
    }

    // The next caller number.
    fn draw_number(&self, seat: &mut RawSeat) -> u32
        requires table { seat.old.table_id ≡ self.now.table.shared.table_id }
        requires can { CanDraw seat.old.me.0 }
        requires low { seat.old.me.0.next < limits.callers }
        ensures table { seat.new.table_id ≡ seat.old.table_id }
        ensures number { result ≡ seat.old.me.0.next }
        ensures drawn { seat.new.me ≡ (numbered seat.old.me.0 result, seat.old.me.1) }
    {
        let word = word_of(self.plan.shape, processes_of(self.plan.shape) + 1);
        self.table.shared.fetch_add::<Draw>(seat, word, 1) as u32
    }
}

// The nodes at the start, each with an empty slot behind it.
fn lay_nodes(alloc: Global, shape: Shape) -> Result<Vec<Option<Node>>, AllocError>
    ensures { IfOk result (λ slots. AreLaid shape (limits.processes_of shape) slots.items) }
{
    let count = shape.k() + shape.m();
    let mut slots = Vec::with_capacity(alloc, count as usize * 2)?;
    'processes: for x in 0..count {
        slots.push(Some(Node::new(alloc, shape, process_at(shape, x))?))?;
        slots.push(None)?;
    }
    Ok(slots)
}
