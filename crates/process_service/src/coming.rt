ghost use Rattle.std.specs.Prelude.{◌≡◌, ◌<◌, ◌≤◌, ◌↔◌, false, IsTrue};
ghost use Rattle.group_types.specs.Lists.{at};
ghost use Rattle.group_types.specs.Names.{IsProcess, of_rank};
ghost use Rattle.membership.specs.Members.{count_known_dead, knows_dead, with_dead};
ghost use Rattle.group_message.specs.declared.message.Message.TheVariants as tells;
ghost use Rattle.group_run.specs.Fitting.{Fits, IsRanked, IsToldBy};
ghost use Rattle.group_run.specs.Process.{Process};
ghost use Rattle.group_run.specs.Replica.{empty_replica};
ghost use Rattle.head_service.specs.Serving.{serving};
ghost use Rattle.process_service.specs.Coming.{CanAdopt, CanSettle, FitsUnlessStale, IsParity, NoticeComes};

use crate::service::Service;
use group_message::{Update, UpdateList};
use group_types::{Partition, ProcessId, Rank};
use partition_replica::Replica;

// What comes from outside fits what the process keeps. Each takes no memory.
impl Service {
    /// Whether an update fits that comes from a process, as the head of a rank.
    pub fn may_follow(
        &self,
        from: ProcessId,
        rank: Rank,
        partition: Partition,
        update: &Update,
        stable: u64,
    ) -> bool
        ensures { (b : Process) → IsTrue result
            ↔ Fits self.now.shape from (tells.Update rank partition update.now stable) (serving self.now b) }
    {
        self.is_told_by(from, partition, rank) && self.can_follow(partition, rank, update, stable)
    }

    /// Whether a number fits that a process has settled, as the head of a rank.
    pub fn may_settle(&self, from: ProcessId, rank: Rank, partition: Partition, number: u64) -> bool
        ensures { (b : Process) → IsTrue result
            ↔ Fits self.now.shape from (tells.Stable rank partition number) (serving self.now b) }
    {
        self.is_told_by(from, partition, rank) && self.can_settle(partition, rank, number)
    }

    /// Whether a list fits that comes from a process, as the new head of a rank.
    pub fn may_adopt(
        &self,
        from: ProcessId,
        rank: Rank,
        partition: Partition,
        base: u64,
        list: &UpdateList,
    ) -> bool
        ensures { (b : Process) → IsTrue result
            ↔ Fits self.now.shape from (tells.Adopt rank partition base list.now) (serving self.now b) }
    {
        self.is_told_by(from, partition, rank) && self.can_adopt(partition, rank, base, list)
    }

    /// Whether the notice of a death fits that comes from a process, and leaves no more than m known dead.
    pub fn may_notice(&self, from: ProcessId, dead: ProcessId) -> bool
        ensures { (b : Process) → b.name ≡ self.now.name
            → IsTrue result ↔ NoticeComes self.now.shape from (serving self.now b) dead }
    {
        from == dead
            && self.is_of_group(dead)
            && dead != self.name
            && !self.known.is_dead(dead)
            && self.leaves_few(dead)
    }

    /// Whether a process has a rank in a partition of the group.
    pub fn is_told_by(&self, from: ProcessId, partition: Partition, rank: Rank) -> bool
        ensures { IsTrue result ↔ IsToldBy self.now.shape from partition.0 rank.0 }
    {
        self.is_ranked(partition, rank) && has_rank(from, partition, rank)
    }

    /// Whether a partition is one of the group, with a rank in it.
    pub fn is_ranked(&self, partition: Partition, rank: Rank) -> bool
        ensures { IsTrue result ↔ IsRanked self.now.shape partition.0 rank.0 }
    {
        partition.0 < self.shape.k() && rank.0 <= self.shape.m()
    }

    /// Whether a process is one of the group.
    pub fn is_of_group(&self, process: ProcessId) -> bool
        ensures { IsTrue result ↔ IsProcess self.now.shape process }
    {
        match process {
            ProcessId::DataNode(d) => d < self.shape.k(),
            ProcessId::ParityNode(i) => i < self.shape.m(),
        }
    }

    /// Whether a process is a parity process of the group.
    pub fn is_parity(&self, process: ProcessId) -> bool
        ensures { IsTrue result ↔ IsParity self.now.shape process }
    {
        match process {
            ProcessId::DataNode(_) => false,
            ProcessId::ParityNode(i) => i < self.shape.m(),
        }
    }
}

// What fits a partition of the group. What a head tells of a rank below the one under which the process follows the
// partition is dropped, so that it always fits.
impl Service {
    fn leaves_few(&self, dead: ProcessId) -> bool
        requires process { IsProcess self.now.shape dead }
        requires news { knows_dead self.now.known dead ≡ false }
        ensures { IsTrue result ↔ (count_known_dead (with_dead self.now.known dead) ≤ self.now.shape.m) }
    {
        let mut known = self.known;
        let _ = known.fail(dead);
        known.lost() <= self.shape.m()
    }

    fn can_follow(&self, partition: Partition, rank: Rank, update: &Update, stable: u64) -> bool
        requires { partition.0 < self.now.shape.k }
        ensures { IsTrue result ↔ FitsUnlessStale self.now partition.0 rank.0 update.now stable }
    {
        rank.0 < self.rank(partition).0 || self.replica(partition).may_follow(update, stable)
    }

    fn can_settle(&self, partition: Partition, rank: Rank, number: u64) -> bool
        requires { partition.0 < self.now.shape.k }
        ensures { IsTrue result ↔ CanSettle self.now partition.0 rank.0 number }
    {
        rank.0 < self.rank(partition).0 || number <= self.last(partition)
    }

    fn can_adopt(&self, partition: Partition, rank: Rank, base: u64, list: &UpdateList) -> bool
        requires { partition.0 < self.now.shape.k }
        ensures { IsTrue result ↔ CanAdopt self.now partition.0 rank.0 base list.now }
    {
        rank.0 < self.rank(partition).0 || self.replica(partition).may_adopt(base, list)
    }

    fn replica(&self, partition: Partition) -> &Replica
        requires { partition.0 < self.now.shape.k }
        ensures shape { result.now.shape ≡ self.now.shape }
        ensures replica { result.now.replica ≡ at empty_replica self.now.replicas partition.0 }
    {
        &self.replicas[partition.0 as usize]
    }
}

// Whether it is the process of a rank in a partition.
fn has_rank(process: ProcessId, partition: Partition, rank: Rank) -> bool
    ensures { IsTrue result ↔ process ≡ of_rank partition.0 rank.0 }
{
    match process {
        ProcessId::DataNode(d) => rank.0 == 0 && d == partition.0,
        ProcessId::ParityNode(i) => rank.0 > 0 && i == rank.0 - 1,
    }
}
