ghost use Rattle.std.specs.Prelude.{◌≡◌, ◌<◌, ◌≤◌, nat_le, IfOk, OnErr};
ghost use Rattle.group_types.specs.Lists.{at};
ghost use Rattle.group_run.specs.Fitting.{AdoptFits, UpdateFits};
ghost use Rattle.group_run.specs.Receiving.{adopt_comes, stable_comes, update_comes};
ghost use Rattle.group_run.specs.Replica.{empty_replica};
ghost use Rattle.head_service.specs.Paging.{AllMiss, Misses};
ghost use Rattle.head_service.specs.Serving.{serving};
ghost use Rattle.process_service.specs.Standing.{GrowsOver, IsAsItWas, IsBeneath, StaysOver};
ghost use Rattle.process_service.specs.Steps.{machine_step};

use crate::acks::{ack_to, reach};
use crate::service::Service;
use crate::step::Step;
use follower_service::adopt::adopt;
use follower_service::follow::follow;
use group_message::{Update, UpdateList};
use group_types::{Partition, ProcessId, Rank};
use head_service::Beneath;
use std::alloc::AllocError;

// A message of a rank below the one under which the process follows the partition is dropped.
impl Service {
    /// An update comes from a head: what is stable is applied, and the update stands in the log and is acknowledged.
    /// After want of memory nothing but room has changed.
    pub fn follow<B: Beneath>(
        &mut self,
        from: ProcessId,
        rank: Rank,
        partition: Partition,
        update: &Update,
        stable: u64,
        below: &mut B,
    ) -> Result<Step, AllocError>
        requires partition { partition.0 < self.old.shape.k }
        requires fits { at 0 self.old.ranks partition.0 ≤ rank.0
            → UpdateFits self.old.shape (at empty_replica self.old.replicas partition.0) update.now stable }
        requires beneath { IsBeneath self.old (B.storage below.old) }
        ensures grows { GrowsOver (Misses self.old.shape.block update.now.body) self.old self.new (B.storage below.old)
            (B.storage below.new) }
        ensures step { IfOk result (λ step. update_comes self.old.shape from rank.0 partition.0 update.now stable
            (serving self.old (B.storage below.old).process)
            ≡ machine_step (serving self.new (B.storage below.new).process) step) }
        ensures wanted { OnErr result (at 0 self.old.ranks partition.0 ≤ rank.0) }
        ensures err { OnErr result (IsAsItWas self.old self.new (B.storage below.old) (B.storage below.new)) }
    {
        if !self.is_current(partition, rank) {
            return Ok(Step::nothing(self.alloc));
        }
        let sent = ack_to(self.alloc, from, rank, partition, update.number)?;
        let replica = &mut self.replicas[partition.0 as usize];
        follow(self.alloc, partition, update, stable, replica, below)?;
        Ok(Step::sending(self.alloc, sent))
    }

    /// A head tells how far it has settled: everything up to that number is applied. After want of memory nothing
    /// but room has changed.
    pub fn settle<B: Beneath>(
        &mut self,
        rank: Rank,
        partition: Partition,
        number: u64,
        below: &mut B,
    ) -> Result<Step, AllocError>
        requires partition { partition.0 < self.old.shape.k }
        requires beneath { IsBeneath self.old (B.storage below.old) }
        ensures stays { StaysOver self.old self.new (B.storage below.old) (B.storage below.new) }
        ensures step { IfOk result (λ step. stable_comes self.old.shape rank.0 partition.0 number
            (serving self.old (B.storage below.old).process)
            ≡ machine_step (serving self.new (B.storage below.new).process) step) }
        ensures wanted { OnErr result (at 0 self.old.ranks partition.0 ≤ rank.0) }
        ensures err { OnErr result (IsAsItWas self.old self.new (B.storage below.old) (B.storage below.new)) }
    {
        if !self.is_current(partition, rank) {
            return Ok(Step::nothing(self.alloc));
        }
        let room = self.room(partition, number)?;
        self.apply(partition, number, room, below);
        Ok(Step::nothing(self.alloc))
    }

    /// A new head's log comes: everything up to its base is applied, and the log is the head's, which is
    /// acknowledged and followed from then on. After want of memory nothing but room has changed.
    pub fn adopt<B: Beneath>(
        &mut self,
        from: ProcessId,
        rank: Rank,
        partition: Partition,
        base: u64,
        list: &UpdateList,
        below: &mut B,
    ) -> Result<Step, AllocError>
        requires partition { partition.0 < self.old.shape.k }
        requires fits { at 0 self.old.ranks partition.0 ≤ rank.0
            → AdoptFits self.old.shape (at empty_replica self.old.replicas partition.0) base list.now }
        requires beneath { IsBeneath self.old (B.storage below.old) }
        ensures grows { GrowsOver (AllMiss self.old.shape.block list.now) self.old self.new (B.storage below.old)
            (B.storage below.new) }
        ensures step { IfOk result (λ step. adopt_comes self.old.shape from rank.0 partition.0 base list.now
            (serving self.old (B.storage below.old).process)
            ≡ machine_step (serving self.new (B.storage below.new).process) step) }
        ensures wanted { OnErr result (at 0 self.old.ranks partition.0 ≤ rank.0) }
        ensures err { OnErr result (IsAsItWas self.old self.new (B.storage below.old) (B.storage below.new)) }
    {
        if !self.is_current(partition, rank) {
            return Ok(Step::nothing(self.alloc));
        }
        let sent = ack_to(self.alloc, from, rank, partition, reach(base, list))?;
        let replica = &mut self.replicas[partition.0 as usize];
        adopt(self.alloc, partition, base, list, replica, below)?;
        self.ranks[partition.0 as usize] = rank;
        Ok(Step::sending(self.alloc, sent))
    }

    // Whether a message of this rank isn't dropped.
    fn is_current(&self, partition: Partition, rank: Rank) -> bool
        requires { partition.0 < self.now.shape.k }
        ensures { result ≡ nat_le (at 0 self.now.ranks partition.0) rank.0 }
    {
        self.rank(partition).0 <= rank.0
    }
}
