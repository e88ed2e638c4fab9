// Keys that were made ready for updates.
ghost use Rattle.std.specs.Prelude.{◌≡◌, ◌||◌, Bool, ℕ, List};
ghost use Rattle.partition_replica.specs.State.{IsTidyBut, is_touched};

use group_message::Update;
use partition_replica::Replica;

/// Ends the readiness of the keys of these updates where nothing needs it.
pub fn tidy_all(replica: &mut Replica, updates: &[Update])
    ensures shape { replica.new.shape ≡ replica.old.shape }
    ensures replica { replica.new.replica ≡ replica.old.replica }
    ensures owed { (owed : List ℕ → Bool) → IsTidyBut replica.old (λ q. owed q || is_touched updates.now q)
        → IsTidyBut replica.new owed }
{
    'updates: for update in updates {
        replica.tidy(&update.key);
    }
}
