ghost use Rattle.std.specs.Prelude.{◌≡◌, OnErr, OnOk};
ghost use Rattle.group_run.specs.Applying.{bytes_after};
ghost use Rattle.group_run.specs.Fitting.{UpdateFits};
ghost use Rattle.group_run.specs.Replica.{applied_to, up_to, with_update};
ghost use Rattle.head_service.specs.Paging.{Misses};
ghost use Rattle.head_service.specs.Seat.{ChangesOnlyRoom, IsWholeSeat};
ghost use Rattle.head_service.specs.Storage.{MakesReady};

use crate::keys::tidy_all;
use crate::prepare::{Prepared, for_update};
use group_message::Update;
use group_types::Partition;
use head_service::Beneath;
use head_service::settle::{settle_to, tidy};
use partition_replica::Replica;
use std::alloc::{AllocError, Global};
use std::slice;

/// An update comes from the head: what is stable is applied, and the update stands in the log. After want of
/// memory nothing but room has changed.
pub fn follow<B: Beneath>(
    alloc: Global,
    partition: Partition,
    update: &Update,
    stable: u64,
    replica: &mut Replica,
    below: &mut B,
) -> Result<(), AllocError>
    requires fits { UpdateFits replica.old.shape replica.old.replica update.now stable }
    requires seat { IsWholeSeat partition.0 replica.old (B.storage below.old) }
    ensures seat { IsWholeSeat partition.0 replica.new (B.storage below.new) }
    ensures makes { MakesReady (Misses (B.storage below.old).shape.block update.now.body) (B.storage below.old)
        (B.storage below.new) }
    ensures replica { OnOk result (replica.new.replica
        ≡ with_update update.now (applied_to stable replica.old.replica)) }
    ensures bytes { OnOk result ((B.storage below.new).process ≡ bytes_after (B.storage below.old).shape partition.0
        (up_to stable replica.old.replica) (B.storage below.old).process) }
    ensures err { OnErr result (ChangesOnlyRoom replica.old replica.new (B.storage below.old) (B.storage below.new)) }
{
    match for_update(alloc, partition, update, stable, replica, below) {
        Ok(
            Prepared {
                copy,
                room: mut settled,
            },
        ) => {
            settle_to(partition, stable, replica, below, &mut settled);
            replica.receive(copy);
            tidy(replica, &settled);
            Ok(())
        }
        Err(AllocError) => {
            tidy_all(replica, slice::from_ref(update));
            Err(AllocError)
        }
    }
}
