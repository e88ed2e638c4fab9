ghost use Rattle.std.specs.Prelude.{◌≡◌, ◌<◌, ◌^◌, false, [], All, IfOk, OnErr};
ghost use Rattle.group_types.specs.Names.{IsProcess};
ghost use Rattle.group_run.specs.Replica.{callers, last_of};
ghost use Rattle.group_run.specs.World.{ask_node, collect_node, flush_node, trace_node, unchanged};
ghost use Rattle.head_service.specs.Acting.{name_of_call};
ghost use Rattle.group_node.specs.Steps.{IsRefusalAnswer};
ghost use Rattle.group_core.specs.Seats.{IsKnownLow, made, one_changed, seat};

use crate::members::Members;
use group_node::{NodeOut, index_of};
use group_types::{Partition, ProcessId};
use head_service::Call;
use memc_table::Op;
use std::alloc::AllocError;

// What a call makes of the node that it is asked at.
impl Members {
    pub(crate) fn ask(&mut self, at: ProcessId, call: Call, op: &Op) -> Result<NodeOut, AllocError>
        requires process { IsProcess self.old.shape at }
        requires caller { call.caller < callers }
        requires numbers { (seat self.old at).down ≡ false → (seat self.old at).dead ≡ false
            → IsKnownLow (seat self.old at).process }
        ensures shape { self.new.shape ≡ self.old.shape }
        ensures step { IfOk result (λ out. one_changed self.old at
            (ask_node self.old.shape (name_of_call call) op.now (seat self.old at)) ≡ made self.new out) }
        ensures refusal { IfOk result (λ out. IsRefusalAnswer out.answer → self.new ≡ self.old) }
        ensures err { OnErr result (self.new ≡ self.old) }
    {
        let at = index_of(self.shape, at) as usize;
        self.nodes[at].ask(call, op)
    }

    pub(crate) fn collect(&mut self, at: ProcessId, caller: u32, call: u64) -> NodeOut
        requires process { IsProcess self.old.shape at }
        ensures shape { self.new.shape ≡ self.old.shape }
        ensures step { one_changed self.old at (collect_node self.old.shape caller call (seat self.old at))
            ≡ made self.new result }
    {
        let at = index_of(self.shape, at) as usize;
        let answer = self.nodes[at].collect(caller, call);
        NodeOut::only(self.alloc, answer)
    }

    pub(crate) fn flush(&mut self, at: ProcessId) -> Result<NodeOut, AllocError>
        requires process { IsProcess self.old.shape at }
        ensures shape { self.new.shape ≡ self.old.shape }
        ensures step { IfOk result (λ out. one_changed self.old at (flush_node self.old.shape (seat self.old at))
            ≡ made self.new out) }
        ensures err { OnErr result (self.new ≡ self.old) }
    {
        let at = index_of(self.shape, at) as usize;
        self.nodes[at].flush()
    }

    pub(crate) fn trace(
        &self,
        at: ProcessId,
        caller: u32,
        call: u64,
        partition: Partition,
    ) -> NodeOut
        requires process { IsProcess self.now.shape at }
        requires caller { caller < callers }
        requires partition { partition.0 < self.now.shape.k }
        ensures step { one_changed self.now at (trace_node self.now.shape caller call partition.0 (seat self.now at))
            ≡ made self.now result }
    {
        let answer = self.node(at).trace(caller, call, partition);
        NodeOut::only(self.alloc, answer)
    }
}
