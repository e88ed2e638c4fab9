ghost use Rattle.std.specs.Prelude.{◌<◌, ◌≤◌, ◌+◌, vec_len, vec_capacity};
ghost use Rattle.std.specs.List.{range_with_len};
ghost use Rattle.group_run.specs.Applying.{for_each};
ghost use Rattle.group_run.specs.Heading as machine;
ghost use Rattle.head_service.specs.Serving.{serving};
ghost use Rattle.process_service.specs.Noticing.{waiting};
ghost use Rattle.process_service.specs.Standing.{IsBeneath, StaysOver};
ghost use Rattle.process_service.specs.Steps.{HasMade};

use crate::service::Service;
use group_types::Partition;
use head_service::judge::judge;
use head_service::{Beneath, Settlement};

// Acknowledgements are judged, partition by partition, where there is room for what waits in all logs.
impl Service {
    pub(crate) fn judge_all<B: Beneath>(&mut self, below: &mut B, settled: &mut Vec<Settlement>)
        requires beneath { IsBeneath self.old (B.storage below.old) }
        requires room { vec_len settled.old + waiting self.old.replicas ≤ vec_capacity settled.old }
        ensures stays { StaysOver self.old self.new (B.storage below.old) (B.storage below.new) }
        ensures room { vec_len settled.new + waiting self.new.replicas ≤ vec_capacity settled.new }
        ensures made { HasMade (for_each (range_with_len 0 self.old.shape.k) (machine.judge self.old.shape)
            (serving self.old (B.storage below.old).process))
            settled.old.items (serving self.new (B.storage below.new).process) settled.new.items }
    {
        'partitions: for d in 0..self.shape.k() {
            self.judge_at(Partition(d), below, settled);
        }
    }

    fn judge_at<B: Beneath>(
        &mut self,
        partition: Partition,
        below: &mut B,
        settled: &mut Vec<Settlement>,
    )
        requires partition { partition.0 < self.old.shape.k }
        requires beneath { IsBeneath self.old (B.storage below.old) }
        requires room { vec_len settled.old + waiting self.old.replicas ≤ vec_capacity settled.old }
        ensures stays { StaysOver self.old self.new (B.storage below.old) (B.storage below.new) }
        ensures room { vec_len settled.new + waiting self.new.replicas ≤ vec_capacity settled.new }
        ensures made { HasMade (machine.judge self.old.shape partition.0
            (serving self.old (B.storage below.old).process)) settled.old.items
            (serving self.new (B.storage below.new).process) settled.new.items }
    {
        let peers = self.peers();
        let d = partition.0 as usize;
        match &self.heads[d] {
            None => {}
            Some(head) => judge(
                partition,
                head,
                &peers,
                &mut self.replicas[d],
                below,
                settled,
            ),
        }
    }
}
