ghost use Rattle.std.specs.Prelude.{◌≡◌, ◌↔◌, true, false, ℕ, List, [], ◌∷◌, IsTrue, IfOk, OnErr};
ghost use Rattle.group_types.specs.Lists.{at};
ghost use Rattle.group_types.specs.Names as names;
ghost use Rattle.group_message.specs.declared.message.Message as told;
ghost use Rattle.group_message.specs.declared.message.Message.TheVariants as tells;
ghost use Rattle.group_run.specs.World.{deliver_nodes, receive_node};
ghost use Rattle.process_service.specs.Current.{is_current};
ghost use Rattle.group_node.specs.Delivering.{Comes};
ghost use Rattle.group_node.specs.Steps.{made};

use crate::node::{Node, NodeOut};
use crate::sending::{index_of, make_room, send_all};
use group_calls::Answer;
use group_message::Message;
use group_types::ProcessId;
use law_answers::sends_few;
use process_service::GroupProcess;
use std::alloc::AllocError;

/// The first message from one node to another is received, where the group isn't down, the receiver lives,
/// and there is one. After want of memory nothing but room has changed.
pub fn deliver_between(sender: &mut Node, receiver: &mut Node) -> Result<NodeOut, AllocError>
    requires same { sender.old.shape ≡ receiver.old.shape }
    requires comes { receiver.old.node.down ≡ false → receiver.old.node.dead ≡ false
        → (m : told.Message) (rest : List told.Message)
        → at [] sender.old.node.links (names.index_of receiver.old.shape receiver.old.node.process.name) ≡ m ∷ rest
        → Comes receiver.old.shape sender.old.node.process.name m receiver.old.node.process }
    ensures sender_shape { sender.new.shape ≡ sender.old.shape }
    ensures receiver_shape { receiver.new.shape ≡ receiver.old.shape }
    ensures step { IfOk result (λ out. deliver_nodes receiver.old.shape sender.old.node.process.name
        receiver.old.node.process.name
        sender.old.node receiver.old.node ≡ record { sender = sender.new.node; receiver = made receiver.new.node out }) }
    ensures wanted { OnErr result ((receiver.old.node.down ≡ false) × (receiver.old.node.dead ≡ false)) }
    ensures sender_err { OnErr result (sender.new ≡ sender.old) }
    ensures receiver_err { OnErr result (receiver.new ≡ receiver.old) }
{
    if receiver.down {
        return Ok(NodeOut::only(receiver.alloc, Answer::Down));
    }
    if receiver.dead {
        return Ok(NodeOut::only(receiver.alloc, Answer::Idle));
    }
    let from = sender.name();
    let to = receiver.name();
    match sender.first(to) {
        None => Ok(NodeOut::only(receiver.alloc, Answer::Idle)),
        Some(message) => {
            let out = receiver.receive(from, message)?;
            let _ = sender.hand_out(to);
            Ok(out)
        }
    }
}

impl Node {
    /// A message from another process is received, where the process lives and the message fits what it holds, as
    /// `may_come` tells. After want of memory nothing but room has changed.
    pub fn receive(&mut self, from: ProcessId, message: &Message) -> Result<NodeOut, AllocError>
        requires lives { self.old.node.dead ≡ false }
        requires comes { Comes self.old.shape from message.now self.old.node.process }
        ensures shape { self.new.shape ≡ self.old.shape }
        ensures step { IfOk result (λ out. receive_node self.old.shape from message.now self.old.node
            ≡ made self.new.node out) }
        ensures wanted { OnErr result (is_current self.old.node.process message.now ≡ true) }
        ensures err { OnErr result (self.new ≡ self.old) }
    {
        if !self.process.acts_on(message) {
            return Ok(NodeOut::only(self.alloc, Answer::Done));
        }
        make_room(self.shape, &mut self.links)?;
        let step = self.process.receive(from, message)?;
        sends_few();
        send_all(self.shape, self.process.known(), step.sent, &mut self.links);
        if let Message::Notice { dead } = message {
            self.links.cut(index_of(self.shape, *dead), 0);
        }
        Ok(NodeOut {
            answer: Answer::Done,
            settled: step.settled,
            opened: false,
        })
    }

    /// Whether the node can learn that a process is dead: it is another of the group, not known dead, and no more than
    /// m are known dead with it.
    pub fn may_learn(&self, dead: ProcessId) -> bool
        ensures { IsTrue result ↔ Comes self.now.shape dead (tells.Notice dead) self.now.node.process }
    {
        self.may_come(dead, &Message::Notice { dead })
    }

    /// The node learns that a process is dead, as by the notice that stands last in the link of the dead. After want of
    /// memory nothing but room has changed.
    pub fn learn_death(&mut self, dead: ProcessId) -> Result<NodeOut, AllocError>
        requires lives { self.old.node.dead ≡ false }
        requires comes { Comes self.old.shape dead (tells.Notice dead) self.old.node.process }
        ensures shape { self.new.shape ≡ self.old.shape }
        ensures step { IfOk result (λ out. receive_node self.old.shape dead (tells.Notice dead) self.old.node
            ≡ made self.new.node out) }
        ensures err { OnErr result (self.new ≡ self.old) }
    {
        self.receive(dead, &Message::Notice { dead })
    }
}
