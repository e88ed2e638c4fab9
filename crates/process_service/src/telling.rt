ghost use Rattle.std.specs.Prelude.{◌≡◌, ◌<◌, IfOk};
ghost use Rattle.group_run.specs.Applying.{head_at, sending};
ghost use Rattle.group_run.specs.Asking.{fate_of};
ghost use Rattle.group_run.specs.Process.{Process};
ghost use Rattle.group_run.specs.Replica.{callers};
ghost use Rattle.group_run.specs.World.{flush_process};
ghost use Rattle.head_service.specs.Serving.{serving};

use crate::service::Service;
use group_calls::Answer;
use group_types::Partition;
use head_service::Sent;
use head_service::fate::fate;
use head_service::flush::flush;
use std::alloc::AllocError;

impl Service {
    /// What became of a call in a partition. It takes no memory.
    pub fn fate(&self, caller: u32, call: u64, partition: Partition) -> Answer
        requires caller { caller < callers }
        requires partition { partition.0 < self.now.shape.k }
        ensures { (b : Process) → b.name ≡ self.now.name
            → result ≡ fate_of self.now.shape caller call partition.0 (serving self.now b)
            (head_at (serving self.now b) partition.0) }
    {
        let d = partition.0 as usize;
        match &self.heads[d] {
            None => Answer::Moved,
            Some(head) => fate(head, &self.peers(), &self.replicas[d], caller, call),
        }
    }

    /// The messages that tell how far each headed partition is settled.
    pub fn flush(&self) -> Result<Vec<Sent>, AllocError>
        ensures { (b : Process) → b.name ≡ self.now.name
            → IfOk result (λ sent. (flush_process self.now.shape (serving self.now b)).step
            ≡ sending sent.items (serving self.now b)) }
    {
        flush(
            self.alloc,
            self.shape,
            &self.peers(),
            &self.heads,
            &self.replicas,
        )
    }
}
