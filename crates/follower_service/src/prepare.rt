// What a step takes of memory, made before it changes anything.
ghost use Rattle.std.specs.Prelude.{◌≡◌, ◌-◌, ◌<◌, [], ◌∷◌, drop, length, vec_capacity, All, IfOk, OnOk};
ghost use Rattle.group_types.specs.Dimensions.{space_of};
ghost use Rattle.group_run.specs.Fitting.{AdoptFits, Writes};
ghost use Rattle.group_run.specs.Replica.{up_to};
ghost use Rattle.partition_replica.specs.State.{HasRoom, is_touched};
ghost use Rattle.head_service.specs.Paging.{AllMiss, Misses};
ghost use Rattle.head_service.specs.Seat.{ChangesOnlyRoom, IsSeatBut, IsWholeSeat};
ghost use Rattle.head_service.specs.Settling.{IsRoomFor};
ghost use Rattle.head_service.specs.Storage.{MakesReady};

use group_message::{Update, UpdateList};
use group_types::Partition;
use head_service::news::{copy_all, copy_of};
use head_service::settle::room;
use head_service::{Beneath, Settlement};
use partition_replica::Replica;
use std::alloc::{AllocError, Global};

/// A copy of what came, and room for what is applied first.
pub struct Prepared<T> {
    pub copy: T,
    pub room: Vec<Settlement>,
}

/// Makes all that an update needs once everything up to `stable` is applied.
pub fn for_update<B: Beneath>(
    alloc: Global,
    partition: Partition,
    update: &Update,
    stable: u64,
    replica: &mut Replica,
    below: &mut B,
) -> Result<Prepared<Update>, AllocError>
    requires writes { Writes (space_of (B.storage below.old).shape) update.now.body }
    requires seat { IsWholeSeat partition.0 replica.old (B.storage below.old) }
    ensures seat { IsSeatBut (is_touched (update.now ∷ [])) partition.0 replica.new (B.storage below.new) }
    ensures makes { MakesReady (Misses (B.storage below.old).shape.block update.now.body) (B.storage below.old)
        (B.storage below.new) }
    ensures same { ChangesOnlyRoom replica.old replica.new (B.storage below.old) (B.storage below.new) }
    ensures ready { OnOk result (HasRoom replica.new.room (update.now ∷ [])
        × (B.storage below.new).is_ready partition.0 update.now) }
    ensures copy { IfOk result (λ p. p.copy ≡ update.now) }
    ensures room { IfOk result (λ p. IsRoomFor (length (up_to stable replica.old.replica)) p.room.items
        (vec_capacity p.room)) }
{
    replica.reserve(update)?;
    below.reserve(partition, update)?;
    Ok(Prepared {
        copy: copy_of(update)?,
        room: room(alloc, stable, replica)?,
    })
}

/// Makes all that a new head's list needs once everything up to its base is applied.
pub fn for_list<B: Beneath>(
    alloc: Global,
    partition: Partition,
    base: u64,
    list: &UpdateList,
    replica: &mut Replica,
    below: &mut B,
) -> Result<Prepared<UpdateList>, AllocError>
    requires fits { AdoptFits replica.old.shape replica.old.replica base list.now }
    requires seat { IsWholeSeat partition.0 replica.old (B.storage below.old) }
    ensures seat { IsSeatBut (is_touched list.now) partition.0 replica.new (B.storage below.new) }
    ensures makes { MakesReady (AllMiss (B.storage below.old).shape.block list.now) (B.storage below.old)
        (B.storage below.new) }
    ensures same { ChangesOnlyRoom replica.old replica.new (B.storage below.old) (B.storage below.new) }
    ensures ready { OnOk result (HasRoom replica.new.room list.now
        × All (λ u. (B.storage below.new).is_ready partition.0 u)
        (drop (replica.old.replica.applied - base) list.now)) }
    ensures copy { IfOk result (λ p. p.copy ≡ list.now) }
    ensures room { IfOk result (λ p. IsRoomFor (length (up_to base replica.old.replica)) p.room.items
        (vec_capacity p.room)) }
{
    replica.reserve_list(list)?;
    let known = replica.applied().saturating_sub(base) as usize;
    reserve_all(partition, &list.updates()[known..], below)?;
    Ok(Prepared {
        copy: copy_all(alloc, list.updates())?,
        room: room(alloc, base, replica)?,
    })
}

fn reserve_all<B: Beneath>(
    partition: Partition,
    updates: &[Update],
    below: &mut B,
) -> Result<(), AllocError>
    requires partition { partition.0 < (B.storage below.old).shape.k }
    requires writes { All (λ u. Writes (space_of (B.storage below.old).shape) u.body) updates.now }
    ensures makes { MakesReady (AllMiss (B.storage below.old).shape.block updates.now) (B.storage below.old)
        (B.storage below.new) }
    ensures bytes { (B.storage below.new).process ≡ (B.storage below.old).process }
    ensures ready { OnOk result (All (λ u. (B.storage below.new).is_ready partition.0 u) updates.now) }
{
    'updates: for update in updates {
        below.reserve(partition, update)?;
    }
    Ok(())
}
