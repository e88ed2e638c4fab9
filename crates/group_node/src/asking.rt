ghost use Rattle.std.specs.Prelude.{◌≡◌, ◌↔◌, ◌<◌, false, [], IsTrue, IfOk, IfSome, IfNone, OnErr};
ghost use Rattle.memc_table.specs.Act.{key_of};
ghost use Rattle.group_run.specs.Replica.{callers};
ghost use Rattle.group_run.specs.World.{NodeStep, ask_node, collect_node, flush_node, if_up, trace_node, unchanged};
ghost use Rattle.head_service.specs.Acting.{name_of_call};
ghost use Rattle.group_node.specs.Asking.{ChangesNothing, HasNumbers, HasOpened};
ghost use Rattle.group_node.specs.Steps.{IsRefusalAnswer, made};

use crate::node::{Node, NodeOut};
use crate::sending::{make_room, send_all};
use group_calls::Answer;
use group_types::{Key, Partition};
use head_service::Call;
use law_answers::sends_few;
use memc_table::Op;
use process_service::GroupProcess;
use std::alloc::AllocError;

impl Node {
    /// A call is asked. After want of memory nothing but room has changed.
    pub fn ask(&mut self, call: Call, op: &Op) -> Result<NodeOut, AllocError>
        requires caller { call.caller < callers }
        requires numbers { self.old.node.down ≡ false → self.old.node.dead ≡ false
            → HasNumbers self.old.shape (key_of op.now.act) self.old.node.process }
        ensures shape { self.new.shape ≡ self.old.shape }
        ensures step { IfOk result (λ out. ask_node self.old.shape (name_of_call call) op.now self.old.node
            ≡ made self.new.node out) }
        ensures refusal { IfOk result (λ out. IsRefusalAnswer out.answer → self.new ≡ self.old) }
        ensures stays { IfOk result (λ out. ChangesNothing op.now out.answer → self.new ≡ self.old) }
        ensures opened { IfOk result (λ out. IsTrue out.opened
            ↔ HasOpened self.old.node.process self.new.node.process) }
        ensures wanted { OnErr result ((self.old.node.down ≡ false) × (self.old.node.dead ≡ false)) }
        ensures err { OnErr result (self.new ≡ self.old) }
    {
        if let Some(answer) = self.refusal() {
            return Ok(NodeOut::only(self.alloc, answer));
        }
        make_room(self.shape, &mut self.links)?;
        let last = self.process.last_session();
        let step = self.process.ask(call, op)?;
        sends_few();
        send_all(self.shape, self.process.known(), step.sent, &mut self.links);
        Ok(NodeOut {
            answer: step.answer,
            settled: step.settled,
            opened: last < self.process.last_session(),
        })
    }

    /// Whether a call on a key can be asked: the numbers of its partition, and those of a parity process's block
    /// sessions, are below 2^62.
    pub fn may_ask(&self, key: &Key) -> bool
        ensures { IsTrue result ↔ HasNumbers self.now.shape key.now self.now.node.process }
    {
        self.process.may_ask(key)
    }

    /// A held call is answered once its update is settled, and forgotten then. It takes no memory.
    pub fn collect(&mut self, caller: u32, call: u64) -> Answer
        ensures shape { self.new.shape ≡ self.old.shape }
        ensures step { collect_node self.old.shape caller call self.old.node ≡ unchanged result self.new.node }
    {
        if let Some(answer) = self.refusal() {
            return answer;
        }
        self.process.collect(caller, call)
    }

    /// The process tells how far it has settled. After want of memory nothing but room has changed.
    pub fn flush(&mut self) -> Result<NodeOut, AllocError>
        ensures shape { self.new.shape ≡ self.old.shape }
        ensures step { IfOk result (λ out. flush_node self.old.shape self.old.node ≡ made self.new.node out) }
        ensures wanted { OnErr result ((self.old.node.down ≡ false) × (self.old.node.dead ≡ false)) }
        ensures err { OnErr result (self.new ≡ self.old) }
    {
        if let Some(answer) = self.refusal() {
            return Ok(NodeOut::only(self.alloc, answer));
        }
        make_room(self.shape, &mut self.links)?;
        let sent = self.process.flush()?;
        sends_few();
        send_all(self.shape, self.process.known(), sent, &mut self.links);
        Ok(NodeOut::only(self.alloc, Answer::Done))
    }

    /// What became of a call in a partition. It takes no memory.
    pub fn trace(&self, caller: u32, call: u64, partition: Partition) -> Answer
        requires caller { caller < callers }
        requires partition { partition.0 < self.now.shape.k }
        ensures { trace_node self.now.shape caller call partition.0 self.now.node ≡ unchanged result self.now.node }
    {
        if let Some(answer) = self.refusal() {
            return answer;
        }
        self.process.fate(caller, call, partition)
    }

    // The answer to what isn't treated: the group is down, or else the process is dead.
    fn refusal(&self) -> Option<Answer>
        ensures some { IfSome result (λ answer. (step : NodeStep)
            → if_up self.now.node.down self.now.node.dead self.now.node step ≡ unchanged answer self.now.node) }
        ensures none { IfNone result ((self.now.node.down ≡ false) × (self.now.node.dead ≡ false)) }
    {
        if self.down {
            return Some(Answer::Down);
        }
        if self.dead {
            return Some(Answer::Lost);
        }
        None
    }
}
