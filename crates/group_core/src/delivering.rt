ghost use Rattle.std.specs.Prelude.{◌≡◌, ◌≢◌, ◌<◌, false, [], ◌∷◌, List, length, IfOk, OnErr};
ghost use Rattle.group_types.specs.Lists.{at};
ghost use Rattle.group_types.specs.Names as names;
ghost use Rattle.group_types.specs.Names.{IsProcess};
ghost use Rattle.group_message.specs.declared.message.Message as told;
ghost use Rattle.group_run.specs.World.{deliver_nodes};
ghost use Rattle.group_node.specs.Delivering.{Comes};
ghost use Rattle.group_core.specs.Pairs.{Exchanged, FirstCanCome};
ghost use Rattle.group_core.specs.Seats.{AreSeated, made, seat, seats_of, two_changed};

use crate::members::Members;
use group_node::{Node, NodeOut, deliver_between, index_of};
use group_types::{ProcessId, Shape};
use std::alloc::AllocError;

impl Members {
    /// The first message from one process to another is received.
    pub(crate) fn deliver(&mut self, from: ProcessId, to: ProcessId) -> Result<NodeOut, AllocError>
        requires from { IsProcess self.old.shape from }
        requires to { IsProcess self.old.shape to }
        requires apart { from ≢ to }
        requires from_name { (seat self.old from).process.name ≡ from }
        requires to_name { (seat self.old to).process.name ≡ to }
        requires comes { (seat self.old to).down ≡ false → (seat self.old to).dead ≡ false → (m : told.Message) (rest : List told.Message)
            → at [] (seat self.old from).links (names.index_of self.old.shape to) ≡ m ∷ rest → Comes self.old.shape from m (seat self.old to).process }
        ensures shape { self.new.shape ≡ self.old.shape }
        ensures step { IfOk result (λ out. two_changed self.old from to
            (deliver_nodes self.old.shape from to (seat self.old from) (seat self.old to)) ≡ made self.new out) }
        ensures err { OnErr result (self.new ≡ self.old) }
    {
        deliver_in(self.shape, &mut self.nodes, from, to)
    }
}

fn deliver_in(
    shape: Shape,
    nodes: &mut [Node],
    from: ProcessId,
    to: ProcessId,
) -> Result<NodeOut, AllocError>
    requires seated { AreSeated shape nodes.old }
    requires from { IsProcess shape from }
    requires to { IsProcess shape to }
    requires apart { from ≢ to }
    requires from_name { (seat (seats_of shape nodes.old) from).process.name ≡ from }
    requires to_name { (seat (seats_of shape nodes.old) to).process.name ≡ to }
    requires comes { (seat (seats_of shape nodes.old) to).down ≡ false → (seat (seats_of shape nodes.old) to).dead ≡ false → (m : told.Message) (rest : List told.Message)
        → at [] (seat (seats_of shape nodes.old) from).links (names.index_of shape to) ≡ m ∷ rest → Comes shape from m (seat (seats_of shape nodes.old) to).process }
    ensures seated { AreSeated shape nodes.new }
    ensures step { IfOk result (λ out. two_changed (seats_of shape nodes.old) from to
        (deliver_nodes shape from to (seat (seats_of shape nodes.old) from) (seat (seats_of shape nodes.old) to)) ≡ made (seats_of shape nodes.new) out) }
    ensures err { OnErr result (nodes.new ≡ nodes.old) }
{
    let sender = index_of(shape, from) as usize;
    let receiver = index_of(shape, to) as usize;
    if sender < receiver {
        deliver_up(nodes, sender, receiver)
    } else {
        deliver_down(nodes, sender, receiver)
    }
}

// From a node to one behind it.
fn deliver_up(nodes: &mut [Node], from: usize, to: usize) -> Result<NodeOut, AllocError>
    requires order { from < to }
    requires within { to < length nodes.old }
    requires can { FirstCanCome nodes.old from to }
    ensures step { IfOk result (λ out. Exchanged nodes.old nodes.new from to out) }
    ensures err { OnErr result (nodes.new ≡ nodes.old) }
{
    let (front, back) = nodes.split_at_mut(to);
    deliver_between(&mut front[from], &mut back[0])
}

// From a node to one before it.
fn deliver_down(nodes: &mut [Node], from: usize, to: usize) -> Result<NodeOut, AllocError>
    requires order { to < from }
    requires within { from < length nodes.old }
    requires can { FirstCanCome nodes.old from to }
    ensures step { IfOk result (λ out. Exchanged nodes.old nodes.new from to out) }
    ensures err { OnErr result (nodes.new ≡ nodes.old) }
{
    let (front, back) = nodes.split_at_mut(from);
    deliver_between(&mut back[0], &mut front[to])
}
