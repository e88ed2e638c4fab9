ghost use Rattle.std.specs.Prelude.{◌≡◌, ◌↔◌, ◌==◌, ℕ, false, [], length, IsTrue, IfOk, ◌-◌, ◌^◌, min};
ghost use Rattle.group_types.specs.Lists.{at};
ghost use Rattle.group_types.specs.Names as names;
ghost use Rattle.group_types.specs.Names.{IsProcess};
ghost use Rattle.group_run.specs.World.{opening_node, with_down};
ghost use Rattle.process_service.specs.Noticing.{waiting};

use crate::process::Process;
use crate::sending::{index_of, make_room};
use group_calls::Answer;
use group_message::Message;
use group_types::{ProcessId, Shape};
use head_service::Settlement;
use link_core::Links;
use process_service::GroupProcess;
use std::alloc::{AllocError, Global};
use std::marker::Model;

/// What a node makes of an event: the answer, what is settled, in order, and whether a call opened a block session.
#[derive(Debug, Drop)]
pub struct NodeOut {
    pub answer: Answer,
    pub settled: Vec<Settlement>,
    pub opened: bool,
}

impl NodeOut {
    /// An answer that settles nothing.
    pub fn only(alloc: Global, answer: Answer) -> NodeOut
        ensures answer { result.answer ≡ answer }
        ensures settled { result.settled.items ≡ [] }
        ensures opened { result.opened ≡ false }
    {
        NodeOut {
            answer,
            settled: Vec::new(alloc),
            opened: false,
        }
    }
}

/// A process with its links to the others, and the words whether it is dead and whether the group is down.
#[derive(Drop)]
pub struct Node {
    pub(crate) alloc: Global,
    pub(crate) shape: Shape,
    pub(crate) process: Process,
    pub(crate) links: Links<Message>,
    pub(crate) dead: bool,
    pub(crate) down: bool,
}

impl Model for Node {
    ghost use Rattle.group_node.specs.Standing.{IsNodeState, NodeStanding, node_standing};

    ghost Value = { NodeStanding };

    ghost view = { λ n. node_standing n.shape n.process n.links n.dead n.down };

    ghost invariant = { λ n. IsNodeState n.shape n.process n.links n.dead };
}

impl Node {
    /// The node of a process at the start.
    pub fn new(alloc: Global, shape: Shape, name: ProcessId) -> Result<Node, AllocError>
        requires { IsProcess shape name }
        ensures { IfOk result (λ node. node ≡ record { shape = shape; node = opening_node shape name }) }
    {
        let process = Process::new(alloc, shape, name)?;
        let mut links = Links::new(alloc, shape.k() + shape.m())?;
        make_room(shape, &mut links)?;
        Ok(Node {
            alloc,
            shape,
            process,
            links,
            dead: false,
            down: false,
        })
    }

    /// Which process it is.
    pub fn name(&self) -> ProcessId
        ensures name { result ≡ self.now.node.process.name }
        ensures process { IsProcess self.now.shape result }
    {
        self.process.name()
    }

    /// The shape of its group.
    pub fn shape(&self) -> Shape
        ensures { result ≡ self.now.shape }
    {
        self.shape
    }

    /// Whether the process is dead.
    pub fn is_dead(&self) -> bool
        ensures { result ≡ self.now.node.dead }
    {
        self.dead
    }

    /// Whether the group is down.
    pub fn is_down(&self) -> bool
        ensures { result ≡ self.now.node.down }
    {
        self.down
    }

    /// Whether no message waits in its link to a process.
    pub fn is_empty(&self, to: ProcessId) -> bool
        requires { IsProcess self.now.shape to }
        ensures { result ≡ (length (at [] self.now.node.links (names.index_of self.now.shape to)) == 0) }
    {
        self.links.is_empty(index_of(self.shape, to))
    }

    /// Whether no message waits in any of its links.
    pub fn is_idle(&self) -> bool
        ensures { IsTrue result ↔ ((to : ℕ) → at [] self.now.node.links to ≡ []) }
    {
        self.links.is_idle()
    }

    /// How many updates wait in its logs.
    pub fn waiting(&self) -> usize
        ensures { result ≡ min (waiting self.now.node.process.replicas) (2 ^ 64 - 1) }
    {
        self.process.waiting()
    }

    /// The node is told whether the group is down. It takes no memory.
    pub fn tell_down(&mut self, down: bool)
        ensures { self.new ≡ record { shape = self.old.shape; node = with_down down self.old.node } }
    {
        self.down = down;
    }
}
