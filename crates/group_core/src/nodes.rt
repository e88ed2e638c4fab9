ghost use Rattle.std.specs.Prelude.{◌≡◌, ◌+◌, ◌<◌, ◌++◌, [], ◌∷◌, length, Some, IfOk, slice_get, MatchOption};
ghost use Rattle.group_types.specs.Shape.{IsShape};
ghost use Rattle.group_run.specs.World.{opening};
ghost use Rattle.group_core.specs.Seats.{AreSeated, nodes_of};

use crate::members::nodes_at_start;
use group_node::Node;
use group_types::Shape;
use std::alloc::{AllocError, Global};
use std::marker::Model;

/// Nodes in one list, with room for a number of them that is fixed as it is made.
#[derive(Drop)]
pub struct Nodes {
    room: u32,
    pub(crate) nodes: Vec<Node>,
}

impl Model for Nodes {
    ghost use Rattle.std.specs.Prelude.{◌≤◌};
    ghost use Rattle.std.specs.Vec.{vec_capacity, vec_len};
    ghost use Rattle.group_core.specs.NodeList.{NodeList};

    ghost Value = { NodeList };

    ghost view = { λ n. record { room = n.room; nodes = n.nodes.items } };

    ghost invariant = { λ n. (vec_len n.nodes ≤ n.room) × (n.room ≤ vec_capacity n.nodes) };
}

impl Nodes {
    /// The nodes of all processes of a group at the start, in their order.
    pub fn new(alloc: Global, shape: Shape) -> Result<Nodes, AllocError>
        ensures nodes { IfOk result (λ list. nodes_of list.nodes ≡ (opening shape).nodes) }
        ensures seated { IfOk result (λ list. AreSeated shape list.nodes) }
        ensures room { IfOk result (λ list. list.room ≡ shape.k + shape.m) }
        ensures limits { IfOk result (λ _. IsShape shape) }
    {
        let room = shape.k() + shape.m();
        let nodes = nodes_at_start(alloc, shape, room)?;
        Ok(Nodes { room, nodes })
    }

    /// An empty list with room for so many.
    pub fn with_room(alloc: Global, room: u32) -> Result<Nodes, AllocError>
        ensures { IfOk result (λ list. list ≡ record { room = room; nodes = [] }) }
    {
        let nodes = Vec::with_capacity(alloc, room as usize)?;
        Ok(Nodes { room, nodes })
    }

    /// A node comes to the end of the list. It takes no memory.
    pub fn push(&mut self, node: Node)
        requires { length self.old.nodes < self.old.room }
        ensures { self.new ≡ record { room = self.old.room; nodes = self.old.nodes ++ node ∷ [] } }
    {
        self.nodes.push_reserved(node);
    }

    /// The last node is taken out; none exactly where the list is empty.
    pub fn pop(&mut self) -> Option<Node>
        ensures room { self.new.room ≡ self.old.room }
        ensures last { MatchOption result ((self.old.nodes ≡ []) × (self.new.nodes ≡ []))
            (λ node. self.old.nodes ≡ self.new.nodes ++ node ∷ []) }
    {
        self.nodes.pop()
    }

    /// How many there are.
    pub fn count(&self) -> u32
        ensures { result ≡ length self.now.nodes }
    {
        self.nodes.len().min(self.room as usize) as u32
    }

    /// The node at a place.
    pub fn node(&self, index: u32) -> &Node
        requires { index < length self.now.nodes }
        ensures { slice_get self.now.nodes index ≡ Some result.now }
    {
        &self.nodes[index as usize]
    }
}
