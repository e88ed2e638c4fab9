ghost use Rattle.std.specs.Prelude.{◌≡◌, ◌<◌, length};
ghost use Rattle.group_types.specs.Dimensions as limits;
ghost use Rattle.group_stage.specs.Gathered.{GaveBack, HasAll, NamesAll, TookAll};
ghost use Rattle.group_stage.specs.Steps.{Knows};

use crate::places::processes_of;
use crate::stage::{RawSeat, Stage};
use group_core::Nodes;

// The nodes of all processes, one after the other.
impl Stage {
    // All further nodes are taken behind the first; or the place of the one whose word was met held.
    pub(crate) fn take_rest(&self, seat: &mut RawSeat, nodes: &mut Nodes) -> Option<usize>
        requires table { seat.old.table_id ≡ self.now.table.shared.table_id }
        requires all { NamesAll self.now.plan seat.old.me.0 }
        requires first { HasAll self.now.plan seat.old.me nodes.old.nodes }
        requires one { length nodes.old.nodes ≡ 1 }
        requires room { nodes.old.room ≡ limits.processes_of self.now.plan.shape }
        requires knows { (es : _) × Knows es seat.old.me.0 }
        ensures table { seat.new.table_id ≡ seat.old.table_id }
        ensures took { TookAll self.now.plan seat.old.me.0 nodes.new.nodes seat.new.me result }
    {
        'processes: for place in 1..processes_of(self.plan.shape) {
            let Some(node) = self.take_next(seat, place) else {
                return Some(place);
            };
            nodes.push(node);
        }
        None
    }

    // They go back in the opposite order.
    pub(crate) fn put_all(&self, seat: &mut RawSeat, nodes: Nodes)
        requires table { seat.old.table_id ≡ self.now.table.shared.table_id }
        requires all { HasAll self.now.plan seat.old.me nodes.nodes }
        ensures table { seat.new.table_id ≡ seat.old.table_id }
        ensures back { GaveBack seat.old.me seat.new.me (length nodes.nodes) }
    {
        let mut nodes = nodes;
        'nodes: while let Some(node) = nodes.pop() {
            self.put_back(seat, nodes.count() as usize, node);
        }
    }
}
