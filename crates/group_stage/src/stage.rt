ghost use Rattle.std.specs.Prelude.{◌≡◌, ◌+◌, ◌<◌};
ghost use Rattle.group_types.specs.Dimensions.{processes_of};
ghost use Rattle.group_stage.specs.Conditions.{CanBegin, CanCommit, CanTake, HasLast, Took};
ghost use Rattle.group_stage.specs.Places as places;
ghost use Rattle.group_stage.specs.Steps.{Knows};
ghost use Rattle.group_stage.specs.Views.{begun, committed, released};
ghost use Rattle.group_calls.specs.declared.event.Event.{Event};
ghost use Rattle.std.specs.Prelude.{ℕ, List, Some, None};
ghost use Rattle.atomic_table.specs.Table.{rest};

use crate::places::{processes_of, slot_of, word_of};
use crate::plays::{Begin, Calls, Commit, Release, Rule, Take};
use crate::view::{Plan, View};
use atomic_table::Table;
use group_node::Node;
use group_types::Shape;
use std::alloc::Global;

// The right to step, with what it knows.
pub(crate) type RawSeat = atomic_table::Seat<Option<Node>, View>;

/// The nodes of a group, which threads share.
#[derive(Drop)]
pub struct Stage {
    pub(crate) alloc: Global,
    pub(crate) table: Table<Option<Node>, View, Plan, Rule, Global>,
    pub(crate) plan: Plan,
    ghost key_is: { table.shared.key ≡ plan },
    ghost words: { table.shared.table_id.words ≡ places.word_of (processes_of plan.shape + 2) },
    ghost some: { 0 < plan.callers },
    ghost slots: { table.shared.table_id.slots ≡ places.slot_of (processes_of plan.shape) },
}

impl Stage {
    /// The shape of the group.
    pub fn shape(&self) -> Shape
        ensures { result ≡ self.now.plan.shape }
    {
        self.plan.shape
    }

    // A call takes its first node, or meets its word held.
    pub(crate) fn take_first<J: Calls>(&self, seat: &mut RawSeat, place: usize) -> Option<Node>
        requires table { seat.old.table_id ≡ self.now.table.shared.table_id }
        requires begin { CanBegin self.now.plan seat.old.me.0 J.event place }
        ensures table { seat.new.table_id ≡ seat.old.table_id }
        ensures took { Took (begun J.event seat.old.me.0) place seat.old.me.1 result seat.new.me }
    {
        let word = word_of(self.plan.shape, place);
        if self.table.shared.fetch_add::<Begin<J>>(seat, word, 1) > 0 {
            return None;
        }
        let slot = slot_of(self.plan.shape, place);
        self.table.shared.exchange(seat, slot, None)
    }

    // A call takes a further node, or meets its word held.
    pub(crate) fn take_next(&self, seat: &mut RawSeat, place: usize) -> Option<Node>
        requires table { seat.old.table_id ≡ self.now.table.shared.table_id }
        requires take { CanTake self.now.plan seat.old.me.0 place }
        ensures table { seat.new.table_id ≡ seat.old.table_id }
        ensures took { Took seat.old.me.0 place seat.old.me.1 result seat.new.me }
    {
        let word = word_of(self.plan.shape, place);
        if self.table.shared.fetch_add::<Take>(seat, word, 1) > 0 {
            return None;
        }
        let slot = slot_of(self.plan.shape, place);
        self.table.shared.exchange(seat, slot, None)
    }

    // The call becomes an event.
    pub(crate) fn commit(&self, seat: &mut RawSeat)
        requires table { seat.old.table_id ≡ self.now.table.shared.table_id }
        requires can { CanCommit self.now.plan seat.old.me.0 }
        ensures table { seat.new.table_id ≡ seat.old.table_id }
        ensures commits { (es : List Event) × Knows es seat.old.me.0
            × (seat.new.me ≡ (committed es seat.old.me.0, seat.old.me.1)) }
    {
        let word = word_of(self.plan.shape, processes_of(self.plan.shape));
        let _found = self.table.shared.fetch_add::<Commit>(seat, word, 1);
    }

    // The node that was taken last is put back, and its word released.
    pub(crate) fn put_back(&self, seat: &mut RawSeat, place: usize, node: Node)
        requires table { seat.old.table_id ≡ self.now.table.shared.table_id }
        requires last { HasLast self.now.plan seat.old.me place node None }
        ensures table { seat.new.table_id ≡ seat.old.table_id }
        ensures released { (found : ℕ) × (seat.new.me ≡ (released seat.old.me.0 place found, rest seat.old.me.1)) }
    {
        let slot = slot_of(self.plan.shape, place);
        drop(self.table.shared.exchange(seat, slot, Some(node)));
        let word = word_of(self.plan.shape, place);
        let _found = self.table.shared.swap::<Release>(seat, word, 0);
    }
}
