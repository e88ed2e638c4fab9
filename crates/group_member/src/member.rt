ghost use Rattle.std.specs.Prelude.{◌≡◌, ℕ, ◌<◌, ◌↔◌, IsTrue, IfOk};
ghost use Rattle.group_types.specs.Names.{IsProcess};
ghost use Rattle.group_types.specs.declared.process.ProcessId.TheVariants.{DataNode, ParityNode};
ghost use Rattle.membership.specs.Members.{knows_dead};
ghost use Rattle.group_run.specs.Applying.{replica_of};
ghost use Rattle.group_wire.specs.State.{opening_group};
ghost use Rattle.group_member.specs.Acting.{nothing_out};
ghost use Rattle.group_member.specs.Opening.{opening_member};
ghost use Rattle.group_member.specs.Standing.{MemberStands};
ghost use Rattle.group_member.specs.Words.{CanReadFrom};

use crate::own_callers::OwnCallers;
use crate::signs::OwnSigns;
use crate::words::OwnWords;
use group_node::Node;
use group_types::{Partition, ProcessId, Shape};
use link_frames::Request;
use partition_replica::Replica;
use std::alloc::{AllocError, Global};
use std::marker::Model;

/// One process of a group, with what its program needs around it. A member that is dropped has stopped, for ever.
#[derive(Drop)]
pub struct Member {
    pub(crate) alloc: Global,
    pub(crate) words: OwnWords,
    pub(crate) signs: OwnSigns,
    pub(crate) callers: OwnCallers,
    pub(crate) parked: Vec<Request>,
    pub(crate) node: Node,
}

impl Model for Member {
    ghost use Rattle.group_member.specs.Standing as standing;
    ghost use Rattle.group_member.specs.Whole.{IsMemberWhole};

    ghost Value = { standing.Member };

    ghost view = { λ m. record {
      words = m.words;
      signs = m.signs;
      callers = m.callers;
      parked = m.parked.items;
      node = m.node.node;
    } };

    ghost invariant = { λ m. IsMemberWhole m.node.shape m.words m.signs m.callers m.parked.items m.node.node };
}

impl Member {
    /// A member at the start.
    pub fn new(alloc: Global, shape: Shape, name: ProcessId) -> Result<Member, AllocError>
        requires { IsProcess shape name }
        ensures opening { IfOk result (λ m. m ≡ opening_member shape name) }
        ensures stands { IfOk result (λ m. MemberStands (opening_group shape) nothing_out m) }
    {
        Ok(Member {
            alloc,
            words: OwnWords::new(alloc, shape, name)?,
            signs: OwnSigns::new(alloc, shape)?,
            callers: OwnCallers::new(alloc, shape, name)?,
            node: Node::new(alloc, shape, name)?,
            parked: Vec::new(alloc),
        })
    }

    /// The shape of the group.
    pub fn shape(&self) -> Shape
        ensures { result ≡ self.now.words.shape }
    {
        self.words.shape()
    }

    /// Which process it is.
    pub fn name(&self) -> ProcessId
        ensures { result ≡ self.now.words.name }
    {
        self.words.name()
    }

    /// Its process's replica of a partition.
    pub fn replica(&self, partition: Partition) -> &Replica
        requires { partition.0 < self.now.words.shape.k }
        ensures { result.now.replica ≡ replica_of self.now.node.process partition.0 }
    {
        self.node.replica(partition)
    }

    /// The number of the last block session that its process opened: 0 at a data process.
    pub fn last_session(&self) -> u64
        ensures parity { (i : ℕ) → self.now.node.process.name ≡ ParityNode i
            → result ≡ self.now.node.process.as_leader.last_session }
        ensures data_process { (d : ℕ) → self.now.node.process.name ≡ DataNode d → result ≡ 0 }
    {
        self.node.last_session()
    }

    /// Whether the member has cut a process.
    pub fn has_cut(&self, x: ProcessId) -> bool
        ensures { result ≡ knows_dead self.now.words.cut x }
    {
        self.words.has_cut(x)
    }

    /// Whether what a process sends is read: it is another of the group, and isn't cut.
    pub fn may_read(&self, from: ProcessId) -> bool
        ensures { IsTrue result ↔ CanReadFrom self.now.words from }
    {
        self.words.may_read(from)
    }
}
