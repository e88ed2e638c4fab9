ghost use Rattle.std.specs.Prelude.{◌↔◌, IsTrue};
ghost use Rattle.group_node.specs.Delivering.{Comes};

use crate::node::Node;
use group_message::Message;
use group_types::ProcessId;

impl Node {
    /// Whether a message can be received from a process of the group: it fits what the node's process holds, is of a
    /// kind that is for it, and comes as in a group that is not down. It takes no memory.
    pub fn may_come(&self, from: ProcessId, message: &Message) -> bool
        ensures { IsTrue result ↔ Comes self.now.shape from message.now self.now.node.process }
    {
        self.process.may_come(from, message)
    }
}
