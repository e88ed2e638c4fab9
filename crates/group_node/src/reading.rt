ghost use Rattle.std.specs.Prelude.{◌≡◌, ℕ, ◌+◌, ◌<◌, ◌≤◌, IfOk, length};
ghost use Rattle.group_types.specs.Dimensions.{space_of};
ghost use Rattle.group_types.specs.declared.process.ProcessId.TheVariants.{DataNode, ParityNode};
ghost use Rattle.erasure_code.specs.Spaces.{bytes_at};
ghost use Rattle.group_run.specs.Applying.{replica_of};
ghost use Rattle.group_run.specs.Shown.{process_stamp};

use crate::node::Node;
use group_types::{Partition, Payload, Run};
use partition_replica::Replica;
use process_service::GroupProcess;
use std::alloc::{AllocError, Global};
use vector_stamp::Stamp;

// What the process shows.
impl Node {
    /// The numbers up to which it has settled or applied: its own partition's alone of a data process, one for each
    /// partition of a parity process.
    pub fn stamp(&self) -> Result<Vec<u64>, AllocError>
        ensures { IfOk result (λ stamp. stamp.items
            ≡ process_stamp self.now.shape self.now.node.process.name self.now.node.process) }
    {
        self.process.stamp(self.alloc, self.shape.k())
    }

    /// Its replica of a partition.
    pub fn replica(&self, partition: Partition) -> &Replica
        requires { partition.0 < self.now.shape.k }
        ensures { result.now.replica ≡ replica_of self.now.node.process partition.0 }
    {
        self.process.replica(partition)
    }

    /// The number up to which it has settled or applied a partition.
    pub fn settled_to(&self, partition: Partition) -> u64
        requires { partition.0 < self.now.shape.k }
        ensures { result ≡ (replica_of self.now.node.process partition.0).applied }
    {
        self.replica(partition).applied()
    }

    /// The number of the last block session that a parity process opened, 0 at a data process.
    pub fn last_session(&self) -> u64
        ensures parity { (i : ℕ) → self.now.node.process.name ≡ ParityNode i
            → result ≡ self.now.node.process.as_leader.last_session }
        ensures data_process { (d : ℕ) → self.now.node.process.name ≡ DataNode d → result ≡ 0 }
    {
        self.process.last_session()
    }

    /// The bytes of a run of its space.
    pub fn bytes(&self, run: Run) -> Result<Payload, AllocError>
        requires { run.at + run.len ≤ space_of self.now.shape }
        ensures { IfOk result (λ bytes. bytes ≡ bytes_at run.at run.len self.now.node.process.space) }
    {
        self.process.bytes(run)
    }
}

/// The numbers of a stamp.
pub(crate) fn numbers_of(alloc: Global, k: u32, stamp: &Stamp) -> Result<Vec<u64>, AllocError>
    requires { k ≡ length stamp.now }
    ensures { IfOk result (λ numbers. numbers.items ≡ stamp.now) }
{
    let mut numbers = Vec::with_capacity(alloc, k as usize)?;
    'partitions: for d in 0..k {
        numbers.push(stamp.at(d))?;
    }
    Ok(numbers)
}
