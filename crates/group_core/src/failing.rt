ghost use Rattle.std.specs.Prelude.{◌≡◌, ◌≤◌, [], length, map};
ghost use Rattle.group_types.specs.Dimensions.{Dimensions};
ghost use Rattle.group_types.specs.Names.{IsProcess};
ghost use Rattle.group_run.specs.World.{all_change, dead_nodes, with_down};
ghost use Rattle.group_core.specs.Seats.{AreNodesOf, AreSeated, made, nodes_of, seat, seats_of};

use crate::members::Members;
use crate::nodes::Nodes;
use group_calls::Answer;
use group_node::{Node, NodeOut, index_of};
use group_types::{ProcessId, Shape};

impl Members {
    /// A process dies, and all nodes are told whether the group is down. It takes no memory.
    pub(crate) fn fail(&mut self, at: ProcessId, keep: u32) -> NodeOut
        requires process { IsProcess self.old.shape at }
        requires name { (seat self.old at).process.name ≡ at }
        ensures shape { self.new.shape ≡ self.old.shape }
        ensures step { all_change (seat self.old at).dead self.old.shape self.old.nodes at keep ≡ made self.new result }
    {
        let answer = kill(self.shape, &mut self.nodes, at, keep);
        NodeOut::only(self.alloc, answer)
    }
}

/// A process dies among the nodes of all processes, and all of them are told whether the group is down. It takes no
/// memory.
pub fn fail_at(shape: Shape, nodes: &mut Nodes, at: ProcessId, keep: u32) -> Answer
    requires seated { AreSeated shape nodes.old.nodes }
    requires process { IsProcess shape at }
    requires name { (seat (seats_of shape nodes.old.nodes) at).process.name ≡ at }
    ensures room { nodes.new.room ≡ nodes.old.room }
    ensures seated { AreSeated shape nodes.new.nodes }
    ensures step { all_change (seat (seats_of shape nodes.old.nodes) at).dead shape (nodes_of nodes.old.nodes) at keep
        ≡ record { nodes = nodes_of nodes.new.nodes; answer = result; settled = [] } }
{
    kill(shape, &mut nodes.nodes, at, keep)
}

fn kill(shape: Shape, nodes: &mut [Node], at: ProcessId, keep: u32) -> Answer
    requires seated { AreSeated shape nodes.old }
    requires process { IsProcess shape at }
    requires name { (seat (seats_of shape nodes.old) at).process.name ≡ at }
    ensures seated { AreSeated shape nodes.new }
    ensures step { all_change (seat (seats_of shape nodes.old) at).dead shape (nodes_of nodes.old) at keep
        ≡ record { nodes = nodes_of nodes.new; answer = result; settled = [] } }
{
    let at = index_of(shape, at) as usize;
    let most = shape.m();
    if nodes[at].is_dead() {
        return Answer::AlreadyDead;
    }
    nodes[at].die(keep);
    let down = most < count_dead(nodes);
    tell_all(nodes, down);
    Answer::Done
}

fn count_dead(nodes: &[Node]) -> u32
    requires { length nodes.now ≤ 32 }
    ensures { result ≡ dead_nodes (nodes_of nodes.now) }
{
    let mut dead = 0u32;
    let mut x = nodes.len();
    'nodes: while 0 < x {
        x -= 1;
        if nodes[x].is_dead() {
            dead += 1;
        }
    }
    dead
}

fn tell_all(nodes: &mut [Node], down: bool)
    ensures nodes { nodes_of nodes.new ≡ map (with_down down) (nodes_of nodes.old) }
    ensures shapes { (s : Dimensions) → AreNodesOf s nodes.old → AreNodesOf s nodes.new }
    ensures many { length nodes.new ≡ length nodes.old }
{
    'nodes: for x in 0..nodes.len() {
        nodes[x].tell_down(down);
    }
}
