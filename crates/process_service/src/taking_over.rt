ghost use Rattle.std.specs.Prelude.{◌≡◌, ◌<◌, ◌≤◌, ◌+◌, vec_len, vec_capacity};
ghost use Rattle.std.specs.List.{range_with_len};
ghost use Rattle.group_run.specs.Applying.{for_each};
ghost use Rattle.group_run.specs.Receiving as machine;
ghost use Rattle.head_service.specs.Serving.{serving};
ghost use Rattle.process_service.specs.Noticing.{successor_at, successors, waiting};
ghost use Rattle.process_service.specs.Standing.{IsBeneath, StaysOver};
ghost use Rattle.process_service.specs.Steps.{HasMade};

use crate::service::Service;
use group_types::Partition;
use head_service::judge::judge;
use head_service::{Beneath, Head, Settlement};

// Partitions are taken over, one by one, with heads that were made before.
impl Service {
    pub(crate) fn take_over_all<B: Beneath>(
        &mut self,
        heads: &mut Vec<Option<Head>>,
        below: &mut B,
        settled: &mut Vec<Settlement>,
    )
        requires heads { heads.old.items ≡ successors self.old (range_with_len 0 self.old.shape.k) }
        requires beneath { IsBeneath self.old (B.storage below.old) }
        requires room { vec_len settled.old + waiting self.old.replicas ≤ vec_capacity settled.old }
        ensures stays { StaysOver self.old self.new (B.storage below.old) (B.storage below.new) }
        ensures made { HasMade (for_each (range_with_len 0 self.old.shape.k) (machine.take_over_if self.old.shape)
            (serving self.old (B.storage below.old).process))
            settled.old.items (serving self.new (B.storage below.new).process) settled.new.items }
    {
        'partitions: for d in 0..self.shape.k() {
            let head = heads[d as usize].take();
            self.take_over_if(Partition(d), head, below, settled);
        }
    }

    // It is taken over where there is a head for it.
    fn take_over_if<B: Beneath>(
        &mut self,
        partition: Partition,
        head: Option<Head>,
        below: &mut B,
        settled: &mut Vec<Settlement>,
    )
        requires partition { partition.0 < self.old.shape.k }
        requires head { head ≡ successor_at self.old partition.0 }
        requires beneath { IsBeneath self.old (B.storage below.old) }
        requires room { vec_len settled.old + waiting self.old.replicas ≤ vec_capacity settled.old }
        ensures stays { StaysOver self.old self.new (B.storage below.old) (B.storage below.new) }
        ensures room { vec_len settled.new + waiting self.new.replicas ≤ vec_capacity settled.new }
        ensures made { HasMade (machine.take_over_if self.old.shape partition.0
            (serving self.old (B.storage below.old).process)) settled.old.items
            (serving self.new (B.storage below.new).process) settled.new.items }
    {
        let Some(head) = head else {
            return;
        };
        let peers = self.peers();
        let d = partition.0 as usize;
        judge(
            partition,
            &head,
            &peers,
            &mut self.replicas[d],
            below,
            settled,
        );
        self.ranks[d] = head.rank();
        self.heads[d] = Some(head);
    }
}
