ghost use Rattle.std.specs.Prelude.{◌<◌, ◌↔◌, IsTrue};
ghost use Rattle.group_message.specs.declared.message.Message.TheVariants as tells;
ghost use Rattle.group_run.specs.Fitting.{Fits};
ghost use Rattle.group_run.specs.Process.{Process};
ghost use Rattle.head_service.specs.Serving.{serving};
ghost use Rattle.process_service.specs.Coming.{HasIssued};

use crate::service::Service;
use group_types::{Partition, ProcessId, Rank};

impl Service {
    /// Whether an acknowledgement fits.
    pub fn may_acknowledge(
        &self,
        from: ProcessId,
        rank: Rank,
        partition: Partition,
        number: u64,
    ) -> bool
        ensures { (b : Process) → IsTrue result
            ↔ Fits self.now.shape from (tells.Ack rank partition number) (serving self.now b) }
    {
        self.is_parity(from)
            && self.is_ranked(partition, rank)
            && self.has_issued(partition, rank, number)
    }

    fn has_issued(&self, partition: Partition, rank: Rank, number: u64) -> bool
        requires { partition.0 < self.now.shape.k }
        ensures { IsTrue result ↔ HasIssued self.now partition.0 rank.0 number }
    {
        self.heads_under(partition, rank) && number <= self.last(partition)
    }
}
