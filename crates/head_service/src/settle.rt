ghost use Rattle.std.specs.Prelude.{◌≡◌, ◌+◌, ◌≤◌, ◌||◌, ℕ, Bool, List, [], length, vec_len, vec_capacity, IfOk};
ghost use Rattle.group_run.specs.Replica.{up_to};
ghost use Rattle.partition_replica.specs.State.{IsTidyBut, is_touched};
ghost use Rattle.head_service.specs.Seat.{OwesOnly, StandsOn};
ghost use Rattle.head_service.specs.Settling.{HasSettled, updates_settled};
ghost use Rattle.head_service.specs.Storage.{StaysReady};

use crate::beneath::Beneath;
use crate::step::Settlement;
use group_types::Partition;
use partition_replica::Replica;
use std::alloc::{AllocError, Global};

/// Room for what is settled up to a number.
pub fn room(alloc: Global, number: u64, replica: &Replica) -> Result<Vec<Settlement>, AllocError>
    ensures empty { IfOk result (λ room. room.items ≡ []) }
    ensures fits { IfOk result (λ room. vec_capacity room ≡ length (up_to number replica.now.replica)) }
{
    let reached = number.min(replica.last());
    Vec::with_capacity(alloc, reached.saturating_sub(replica.applied()) as usize)
}

/// Applies the partition up to a number, and adds what is settled to the list. It takes no memory. The
/// caller owes a `tidy` of each key that is settled.
pub fn settle_to<B: Beneath>(
    partition: Partition,
    number: u64,
    replica: &mut Replica,
    below: &mut B,
    settled: &mut Vec<Settlement>,
)
    requires stands { StandsOn partition.0 replica.old (B.storage below.old) }
    requires room { vec_len settled.old + length (up_to number replica.old.replica) ≤ vec_capacity settled.old }
    ensures stands { StandsOn partition.0 replica.new (B.storage below.new) }
    ensures stays { StaysReady (B.storage below.old) (B.storage below.new) }
    ensures settled { HasSettled partition.0 number replica.old.replica replica.new.replica (B.storage below.old)
        (B.storage below.new) settled.old.items settled.new.items }
    ensures capacity { vec_capacity settled.old ≤ vec_capacity settled.new }
    ensures room { replica.new.room ≡ replica.old.room }
    ensures owed { OwesOnly (up_to number replica.old.replica) replica.old replica.new }
{
    'updates: while replica.applied() < number {
        let Some(update) = replica.settle_next() else {
            break;
        };
        below.add(partition, &update);
        match settled.push(Settlement { partition, update }) {
            Ok(()) => {}
            Err(_) => unreachable!(),
        }
    }
}

/// Ends the readiness of the keys of these updates where nothing needs it.
pub fn tidy(replica: &mut Replica, settled: &[Settlement])
    ensures shape { replica.new.shape ≡ replica.old.shape }
    ensures replica { replica.new.replica ≡ replica.old.replica }
    ensures owed { (owed : List ℕ → Bool) → IsTidyBut replica.old
        (λ q. owed q || is_touched (updates_settled settled.now) q) → IsTidyBut replica.new owed }
{
    'settled: for settlement in settled {
        replica.tidy(&settlement.update.key);
    }
}
