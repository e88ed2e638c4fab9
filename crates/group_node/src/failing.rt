ghost use Rattle.std.specs.Prelude.{◌≡◌, ◌+◌, false, length, IfOk};
ghost use Rattle.group_run.specs.World.{links_cut, node_failed};
ghost use Rattle.group_node.specs.Rooms.{HaveRoom, messages};

use crate::node::Node;
use group_message::Message;
use group_types::{ProcessId, Shape};
use link_core::Links;
use process_service::GroupProcess;

impl Node {
    /// The process dies: each link keeps its first messages, and the notice of the death stands behind them.
    /// It takes no memory.
    pub fn die(&mut self, keep: u32)
        requires { self.old.node.dead ≡ false }
        ensures { self.new ≡ record { shape = self.old.shape; node = node_failed self.old.shape self.old.node.process.name keep self.old.node } }
    {
        self.dead = true;
        cut(self.shape, self.process.name(), keep, &mut self.links);
    }
}

fn cut(shape: Shape, dead: ProcessId, keep: u32, links: &mut Links<Message>)
    requires many { length links.old ≡ shape.k + shape.m }
    requires room { HaveRoom 1 links.old }
    ensures many { length links.new ≡ length links.old }
    ensures messages { messages links.new ≡ links_cut shape dead keep (messages links.old) }
{
    'targets: for to in 0..shape.k() + shape.m() {
        links.cut(to, keep);
        links.send(to, Message::Notice { dead });
    }
}
