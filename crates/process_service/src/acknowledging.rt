ghost use Rattle.std.specs.Prelude.{◌≡◌, ◌<◌, [], None, true, IfOk, OnErr};
ghost use Rattle.group_run.specs.Applying.{head_at};
ghost use Rattle.group_run.specs.Heading.{acknowledge};
ghost use Rattle.head_service.specs.Serving.{serving};
ghost use Rattle.group_types.specs.Lists.{at};
ghost use Rattle.process_service.specs.Standing.{IsAsItWas, IsBeneath, StaysOver, is_under};

use crate::service::Service;
use group_types::{Partition, Rank};
use head_service::judge::acknowledge;
use head_service::{Beneath, Settlement};
use std::alloc::AllocError;

mod coming;

impl Service {
    /// A parity process acknowledges a number under a rank, which counts for nothing where the process doesn't head the
    /// partition under that rank. After want of memory nothing but room has changed.
    pub fn acknowledge<B: Beneath>(
        &mut self,
        parity: u32,
        rank: Rank,
        partition: Partition,
        number: u64,
        below: &mut B,
    ) -> Result<Vec<Settlement>, AllocError>
        requires parity { parity < self.old.shape.m }
        requires partition { partition.0 < self.old.shape.k }
        requires beneath { IsBeneath self.old (B.storage below.old) }
        ensures stays { StaysOver self.old self.new (B.storage below.old) (B.storage below.new) }
        ensures settled { IfOk result (λ settled.
            acknowledge self.old.shape parity rank.0 partition.0 number (head_at (serving self.old (B.storage below.old).process) partition.0)
            (serving self.old (B.storage below.old).process)
            ≡ record { process = serving self.new (B.storage below.new).process; sent = []; settled = settled.items }) }
        ensures wanted { OnErr result (is_under rank.0 (at None self.old.heads partition.0) ≡ true) }
        ensures err { OnErr result (IsAsItWas self.old self.new (B.storage below.old) (B.storage below.new)) }
    {
        if !self.heads_under(partition, rank) {
            return Ok(Vec::new(self.alloc));
        }
        let peers = self.peers();
        let d = partition.0 as usize;
        match &mut self.heads[d] {
            None => Ok(Vec::new(self.alloc)),
            Some(head) => acknowledge(
                self.alloc,
                partition,
                parity,
                number,
                head,
                &peers,
                &mut self.replicas[d],
                below,
            ),
        }
    }

    // Whether the process heads the partition under this rank.
    pub(crate) fn heads_under(&self, partition: Partition, rank: Rank) -> bool
        requires { partition.0 < self.now.shape.k }
        ensures { result ≡ is_under rank.0 (at None self.now.heads partition.0) }
    {
        match &self.heads[partition.0 as usize] {
            None => false,
            Some(head) => head.rank() == rank,
        }
    }
}
