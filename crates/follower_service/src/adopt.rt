ghost use Rattle.std.specs.Prelude.{◌≡◌, OnErr, OnOk};
ghost use Rattle.group_run.specs.Applying.{bytes_after};
ghost use Rattle.group_run.specs.Fitting.{AdoptFits};
ghost use Rattle.group_run.specs.Receiving.{adopting};
ghost use Rattle.group_run.specs.Replica.{applied_to, up_to};
ghost use Rattle.head_service.specs.Paging.{AllMiss};
ghost use Rattle.head_service.specs.Seat.{ChangesOnlyRoom, IsWholeSeat};
ghost use Rattle.head_service.specs.Storage.{MakesReady};

use crate::keys::tidy_all;
use crate::prepare::{Prepared, for_list};
use group_message::UpdateList;
use group_types::Partition;
use head_service::Beneath;
use head_service::settle::{settle_to, tidy};
use partition_replica::Replica;
use std::alloc::{AllocError, Global};

/// A new head's log comes: everything up to its base is applied, and the log is the head's. After want of
/// memory nothing but room has changed.
pub fn adopt<B: Beneath>(
    alloc: Global,
    partition: Partition,
    base: u64,
    list: &UpdateList,
    replica: &mut Replica,
    below: &mut B,
) -> Result<(), AllocError>
    requires fits { AdoptFits replica.old.shape replica.old.replica base list.now }
    requires seat { IsWholeSeat partition.0 replica.old (B.storage below.old) }
    ensures seat { IsWholeSeat partition.0 replica.new (B.storage below.new) }
    ensures makes { MakesReady (AllMiss (B.storage below.old).shape.block list.now) (B.storage below.old)
        (B.storage below.new) }
    ensures replica { OnOk result (replica.new.replica ≡ adopting base list.now (applied_to base replica.old.replica)) }
    ensures bytes { OnOk result ((B.storage below.new).process ≡ bytes_after (B.storage below.old).shape partition.0
        (up_to base replica.old.replica) (B.storage below.old).process) }
    ensures err { OnErr result (ChangesOnlyRoom replica.old replica.new (B.storage below.old) (B.storage below.new)) }
{
    match for_list(alloc, partition, base, list, replica, below) {
        Ok(
            Prepared {
                copy,
                room: mut settled,
            },
        ) => {
            settle_to(partition, base, replica, below, &mut settled);
            replica.adopt(base, copy);
            tidy(replica, &settled);
            tidy_all(replica, list.updates());
            Ok(())
        }
        Err(AllocError) => {
            tidy_all(replica, list.updates());
            Err(AllocError)
        }
    }
}
