ghost use Rattle.std.specs.Prelude.{◌≡◌, [], drop, option_copied, slice_get};
ghost use Rattle.group_types.specs.Lists.{at};
ghost use Rattle.group_types.specs.Names as names;
ghost use Rattle.group_types.specs.Names.{IsProcess};
ghost use Rattle.group_run.specs.World.{with_link};

use crate::node::Node;
use crate::sending::index_of;
use group_message::Message;
use group_types::ProcessId;

impl Node {
    /// The oldest message that waits in its link to a process, which stays there.
    pub fn first(&self, to: ProcessId) -> Option<&Message>
        requires { IsProcess self.now.shape to }
        ensures { option_copied result ≡ slice_get (at [] self.now.node.links (names.index_of self.now.shape to)) 0 }
    {
        self.links.peek(index_of(self.shape, to))
    }

    /// Takes the oldest message out of its link to a process, so that a sender can bring it there. It takes no memory.
    pub fn hand_out(&mut self, to: ProcessId) -> Option<Message>
        requires { IsProcess self.old.shape to }
        ensures shape { self.new.shape ≡ self.old.shape }
        ensures first { result ≡ slice_get (at [] self.old.node.links (names.index_of self.old.shape to)) 0 }
        ensures rest { self.new.node ≡ with_link self.old.shape to
            (drop 1 (at [] self.old.node.links (names.index_of self.old.shape to))) self.old.node }
    {
        self.links.pop(index_of(self.shape, to))
    }
}
