ghost use Rattle.std.specs.Prelude.{◌≡◌, ◌+◌, ◌≤◌, ◌<◌, ◌↔◌, [], IsTrue, IfOk};
ghost use Rattle.group_types.specs.Dimensions.{space_of};
ghost use Rattle.group_types.specs.Lists.{at};
ghost use Rattle.group_types.specs.Names.{IsProcess};
ghost use Rattle.group_calls.specs.Log.{IsLegal};
ghost use Rattle.group_run.specs.Headline.{AgreeOnStamp};
ghost use Rattle.group_run.specs.Meaning.{IsDown, is_dead};
ghost use Rattle.group_run.specs.Replica.{callers};
ghost use Rattle.group_run.specs.Shown.{held, stamp_of};
ghost use Rattle.group_core.specs.Runs.{HasHeadline, HasRun};

use crate::world::World;
use group_calls::Entry;
use group_types::{Partition, Payload, ProcessId, Run, Shape};
use std::alloc::AllocError;

impl World {
    /// A run of events led to the group, and so all holds of it that is proved of every run.
    pub fn run(&self)
        ensures { HasRun self.now }
    {
        let _nodes = &self.nodes;
    }

    /// Its shape.
    pub fn shape(&self) -> Shape
        ensures { result ≡ self.now.shape }
    {
        self.nodes.shape()
    }

    /// How many events there were.
    pub fn events(&self) -> u64
        ensures { result ≡ self.now.events }
    {
        self.ledger.events()
    }

    /// How often a caller asked.
    pub fn asks(&self, caller: u32) -> u64
        requires { caller < callers }
        ensures { result ≡ at 0 self.now.asked caller }
    {
        self.ledger.asks(caller)
    }

    /// The log: each reply in it is the one that the table gives, in the log's order. The headline holds of the run
    /// that led to it.
    pub fn log(&self) -> &[Entry]
        ensures log { result.now ≡ self.now.log }
        ensures legal { IsLegal self.now.shape.k self.now.log }
        ensures headline { HasHeadline self.now }
    {
        self.ledger.log()
    }

    /// The run of each logged update of a partition, by number: none of an update that writes no value.
    pub fn places(&self, partition: Partition) -> &[Option<Run>]
        requires { partition.0 < self.now.shape.k }
        ensures { result.now ≡ at [] self.now.places partition.0 }
    {
        self.ledger.places(partition)
    }

    /// The numbers up to which a process has settled or applied: its own partition's alone of a data process, one for
    /// each partition of a parity process.
    pub fn stamp(&self, at: ProcessId) -> Result<Vec<u64>, AllocError>
        requires { IsProcess self.now.shape at }
        ensures { IfOk result (λ stamp. stamp.items ≡ stamp_of self.now at) }
    {
        self.nodes.node(at).stamp()
    }

    /// The bytes of a run of a process's space. While the group isn't down, the spaces of the living agree with the
    /// log on their stamps.
    pub fn bytes(&self, at: ProcessId, run: Run) -> Result<Payload, AllocError>
        requires process { IsProcess self.now.shape at }
        requires run { run.at + run.len ≤ space_of self.now.shape }
        ensures bytes { IfOk result (λ bytes. bytes ≡ held self.now at run) }
        ensures values { ¬ (IsDown self.now) → AgreeOnStamp self.now }
    {
        self.nodes.node(at).bytes(run)
    }

    /// Whether a process is dead.
    pub fn is_dead(&self, at: ProcessId) -> bool
        requires { IsProcess self.now.shape at }
        ensures { result ≡ is_dead self.now at }
    {
        self.nodes.node(at).is_dead()
    }

    /// Whether more than m processes are dead.
    pub fn is_down(&self) -> bool
        ensures { IsTrue result ↔ IsDown self.now }
    {
        let first = self.nodes.node(ProcessId::DataNode(0));
        first.is_down()
    }
}
