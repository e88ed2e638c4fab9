ghost use Rattle.std.specs.Prelude.{◌≡◌, ◌<◌, nat_lt, suc, Some, None, if◌then◌else◌};
ghost use Rattle.std.specs.List.{range_with_len};
ghost use Rattle.group_run.specs.Applying.{head_at};
ghost use Rattle.group_run.specs.Asking.{inherited_or, oldest_inherited};
ghost use Rattle.group_run.specs.Process.{Process};
ghost use Rattle.head_service.specs.Serving.{serving};
ghost use Rattle.process_service.specs.Inherited.{oldest_as};

use crate::service::Service;
use group_types::Partition;

/// An update of a partition that its new head inherited.
#[derive(Clone, Copy, Debug, PartialEq, Eq)]
pub struct Inherited {
    pub partition: Partition,
    pub number: u64,
}

impl Service {
    /// The oldest inherited update that is unfinished, of the lowest headed partition that has one. It takes no memory.
    pub fn oldest_inherited(&self) -> Option<Inherited>
        ensures { (b : Process) → oldest_inherited (serving self.now b) (range_with_len 0 self.now.shape.k)
            ≡ oldest_as result }
    {
        'partitions: for d in 0..self.shape.k() {
            let found = self.inherited_at(Partition(d));
            if found.is_some() {
                return found;
            }
        }
        None
    }

    // The oldest one of a partition.
    fn inherited_at(&self, partition: Partition) -> Option<Inherited>
        requires { partition.0 < self.now.shape.k }
        ensures { (b : Process) → inherited_or (serving self.now b) partition.0
            (head_at (serving self.now b) partition.0) None ≡ oldest_as result }
    {
        match &self.heads[partition.0 as usize] {
            None => None,
            Some(head) => unfinished(partition, self.applied(partition), head.inherited()),
        }
    }
}

// The update behind what is applied, if it is an inherited one.
fn unfinished(partition: Partition, applied: u64, inherited: u64) -> Option<Inherited>
    ensures { (if nat_lt applied inherited then Some
        (record { partition = partition.0; number = suc applied }) else None) ≡ oldest_as result }
{
    if inherited <= applied {
        return None;
    }
    Some(Inherited {
        partition,
        number: applied + 1,
    })
}
