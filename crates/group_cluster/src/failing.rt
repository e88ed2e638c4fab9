ghost use Rattle.std.specs.Prelude.{◌≡◌, ◌<◌, ◌≤◌, ◌+◌, length, IfOk, OnErr, OnOk};
ghost use Rattle.group_layout.specs.Cluster.{MayAllMove, all_moved};
ghost use Rattle.group_cluster.specs.Begun.{Begun, group_moves, node_moves};
ghost use Rattle.group_cluster.specs.History.{AllHaveFew, HasFewEvents};

use crate::groups::ClusterEntries;
use group_calls::Event;
use group_layout::layout::process_on;
use group_node::process_at;
use std::alloc::AllocError;

impl ClusterEntries {
    /// The processes of all groups that stand on a node fail, in ascending groups. After want of memory the first
    /// groups may have lost theirs.
    pub(crate) fn fail_node(&mut self, nodes: u32, node: u32, keep: u32) -> Result<(), AllocError>
        requires nodes { 1 ≤ nodes }
        requires count { length self.old.worlds ≤ 16 }
        requires processes { self.old.shape.k + self.old.shape.m ≤ 64 }
        requires few { AllHaveFew self.old }
        requires may { MayAllMove self.old (node_moves self.old nodes node keep) }
        ensures ok { OnOk result (self.new ≡ all_moved self.old (node_moves self.old nodes node keep)) }
        ensures err { OnErr result (Begun self.old (node_moves self.old nodes node keep) self.new) }
    {
        let count = self.worlds.len() as u32;
        'groups: for group in 0..count {
            self.fail_in(group, nodes, node, keep)?;
        }
        Ok(())
    }

    // The process of one group that stands on a node fails, if one does.
    fn fail_in(&mut self, group: u32, nodes: u32, node: u32, keep: u32) -> Result<(), AllocError>
        requires nodes { 1 ≤ nodes }
        requires group { group < length self.old.worlds }
        requires count { group ≤ 16 }
        requires processes { self.old.shape.k + self.old.shape.m ≤ 64 }
        requires few { HasFewEvents self.old group }
        requires may { MayAllMove self.old (group_moves self.old nodes node keep group) }
        ensures ok { OnOk result (self.new ≡ all_moved self.old (group_moves self.old nodes node keep group)) }
        ensures err { OnErr result (self.new ≡ self.old) }
    {
        let shape = self.shape;
        let processes = shape.k() + shape.m();
        if let Some(process) = process_on(nodes, processes, node, group) {
            let at = process_at(shape, process);
            self.step(group, &Event::Fail { at, keep })?;
        }
        Ok(())
    }
}
