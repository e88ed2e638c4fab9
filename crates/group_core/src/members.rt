ghost use Rattle.std.specs.Prelude.{◌≡◌, ◌+◌, ◌≤◌, IfOk, length, map};
ghost use Rattle.std.specs.List.{range_with_len};
ghost use Rattle.group_types.specs.Names as names;
ghost use Rattle.group_types.specs.Names.{IsProcess};
ghost use Rattle.group_types.specs.Shape.{IsShape};
ghost use Rattle.group_run.specs.World.{opening, opening_node};
ghost use Rattle.group_core.specs.Seats.{AreNodesOf, nodes_of, seat};

use group_node::{Node, index_of, process_at};
use group_types::{ProcessId, Shape};
use std::alloc::{AllocError, Global};
use std::marker::Model;

/// The nodes of all processes of a group, in their order.
#[derive(Drop)]
pub(crate) struct Members {
    pub(crate) alloc: Global,
    pub(crate) shape: Shape,
    pub(crate) nodes: Vec<Node>,
}

impl Model for Members {
    ghost use Rattle.group_core.specs.Seats.{AreSeated, Seats, seats_of};

    ghost Value = { Seats };

    ghost view = { λ n. seats_of n.shape n.nodes.items };

    ghost invariant = { λ n. AreSeated n.shape n.nodes.items };
}

impl Members {
    /// Those at the start.
    pub(crate) fn new(alloc: Global, shape: Shape) -> Result<Members, AllocError>
        ensures nodes { IfOk result (λ members. members ≡ record { shape = shape; nodes = (opening shape).nodes }) }
        ensures limits { IfOk result (λ _. IsShape shape) }
    {
        let nodes = nodes_at_start(alloc, shape, shape.k() + shape.m())?;
        Ok(Members {
            alloc,
            shape,
            nodes,
        })
    }

    /// The shape of the group.
    pub(crate) fn shape(&self) -> Shape
        ensures { result ≡ self.now.shape }
    {
        self.shape
    }

    /// The node of a process.
    pub(crate) fn node(&self, at: ProcessId) -> &Node
        requires { IsProcess self.now.shape at }
        ensures shape { result.now.shape ≡ self.now.shape }
        ensures node { result.now.node ≡ seat self.now at }
    {
        let at = index_of(self.shape, at) as usize;
        &self.nodes[at]
    }
}

pub(crate) fn nodes_at_start(
    alloc: Global,
    shape: Shape,
    count: u32,
) -> Result<Vec<Node>, AllocError>
    requires { count ≤ shape.k + shape.m }
    ensures nodes { IfOk result (λ nodes. nodes_of nodes.items
        ≡ map (λ x. opening_node shape (names.process_at shape x)) (range_with_len 0 count)) }
    ensures shapes { IfOk result (λ nodes. AreNodesOf shape nodes.items) }
    ensures many { IfOk result (λ nodes. length nodes.items ≡ count) }
{
    let mut nodes = Vec::with_capacity(alloc, count as usize)?;
    'processes: for x in 0..count {
        nodes.push(Node::new(alloc, shape, process_at(shape, x))?)?;
    }
    Ok(nodes)
}
