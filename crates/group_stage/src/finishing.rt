ghost use Rattle.std.specs.Prelude.{◌≡◌, ℕ, [], List};
ghost use Rattle.group_stage.specs.Conditions.{CanFinish};
ghost use Rattle.group_stage.specs.Steps.{Knows};
ghost use Rattle.group_stage.specs.Views.{committed, released};
ghost use Rattle.group_calls.specs.declared.event.Event.{Event};

use crate::stage::{RawSeat, Stage};
use group_node::Node;

impl Stage {
    // A call of one process becomes an event, and the node goes back.
    pub(crate) fn finish(&self, seat: &mut RawSeat, place: usize, node: Node)
        requires table { seat.old.table_id ≡ self.now.table.shared.table_id }
        requires can { CanFinish self.now.plan seat.old.me place node }
        ensures table { seat.new.table_id ≡ seat.old.table_id }
        ensures finished { (es : List Event) × Knows es seat.old.me.0
            × ((found : ℕ) × (seat.new.me ≡ (released (committed es seat.old.me.0) place found, []))) }
    {
        self.commit(seat);
        self.put_back(seat, place, node);
    }
}
