ghost use Rattle.std.specs.Prelude.{◌≡◌, ℕ, ◌+◌, ◌*◌, ◌<◌, ◌≤◌, ◌^◌, ◌||◌, ◌&&◌, not, [], ◌∷◌, length, Bool, List, IsOk, OnOk, OnErr};
ghost use Rattle.group_types.specs.Lists.{same_key};
ghost use Rattle.partition_replica.specs.State.{GrowsFor, HasRoom, IsTidyBut, is_among, is_needed, is_touched};

use super::Replica;
use crate::items;
use crate::updates::Updates;
use group_message::{Update, UpdateList};
use group_types::Key;
use request_log::Log;
use std::alloc::AllocError;
use std::slice;

impl Replica {
    /// Makes room to receive an update, to settle it and to drop it. The caller owes a `tidy` of the
    /// update's key once its step is done.
    pub fn reserve(&mut self, update: &Update) -> Result<(), AllocError>
        ensures shape { self.new.shape ≡ self.old.shape }
        ensures replica { self.new.replica ≡ self.old.replica }
        ensures ok { OnOk result (HasRoom self.new.room (update.now ∷ [])) }
        ensures kept { (us : List Update) → HasRoom self.old.room us → HasRoom self.new.room us }
        ensures most { GrowsFor self.old.room self.new.room (update.now ∷ []) }
        ensures owed { (owed : List ℕ → Bool) → IsTidyBut self.old owed
            → IsTidyBut self.new (λ q. owed q || is_touched (update.now ∷ []) q) }
        ensures err { OnErr result (self.new.room.spare ≡ self.old.room.spare) }
        ensures succeeds { HasRoom self.old.room (update.now ∷ []) → IsOk result }
    {
        self.reserve_all(slice::from_ref(update))
    }

    /// Makes room for all updates of a list. The caller owes a `tidy` of each key.
    pub fn reserve_list(&mut self, list: &UpdateList) -> Result<(), AllocError>
        requires few { length list.now < 2 ^ 32 }
        ensures shape { self.new.shape ≡ self.old.shape }
        ensures replica { self.new.replica ≡ self.old.replica }
        ensures ok { OnOk result (HasRoom self.new.room list.now) }
        ensures kept { (us : List Update) → HasRoom self.old.room us → HasRoom self.new.room us }
        ensures most { GrowsFor self.old.room self.new.room list.now }
        ensures owed { (owed : List ℕ → Bool) → IsTidyBut self.old owed
            → IsTidyBut self.new (λ q. owed q || is_touched list.now q) }
        ensures err { OnErr result (self.new.room.spare ≡ self.old.room.spare) }
        ensures succeeds { HasRoom self.old.room list.now → IsOk result }
    {
        self.reserve_all(list.updates())
    }

    fn reserve_all(&mut self, updates: &[Update]) -> Result<(), AllocError>
        requires few { length updates.now < 2 ^ 32 }
        ensures shape { self.new.shape ≡ self.old.shape }
        ensures replica { self.new.replica ≡ self.old.replica }
        ensures ok { OnOk result (HasRoom self.new.room updates.now) }
        ensures kept { (us : List Update) → HasRoom self.old.room us → HasRoom self.new.room us }
        ensures most { GrowsFor self.old.room self.new.room updates.now }
        ensures err { OnErr result (self.new.room.spare ≡ self.old.room.spare) }
        ensures succeeds { HasRoom self.old.room updates.now → IsOk result }
    {
        items::prepare(&mut self.index, updates)?;
        if updates.len() <= self.spare {
            return Ok(());
        }
        self.grow(updates.len())
    }

    // Room for `spare` updates, which is more than there is, in the log and among the free runs.
    fn grow(&mut self, spare: usize) -> Result<(), AllocError>
        requires more { self.old.room.spare ≤ spare }
        requires few { spare < 2 ^ 32 }
        ensures shape { self.new.shape ≡ self.old.shape }
        ensures replica { self.new.replica ≡ self.old.replica }
        ensures ready { self.new.room.ready ≡ self.old.room.ready }
        ensures spare { self.old.room.spare ≤ self.new.room.spare }
        ensures ok { OnOk result (self.new.room.spare ≡ spare) }
        ensures err { OnErr result (self.new.room.spare ≡ self.old.room.spare) }
    {
        self.log.reserve(spare)?;
        self.runs.reserve(runs_needed(&self.log, spare))?;
        self.spare = spare;
        Ok(())
    }

    /// Ends the readiness of a key that has no item and no update in the log, as that of a settled
    /// deletion, so that the replica keeps nothing of it.
    pub fn tidy(&mut self, key: &Key)
        ensures shape { self.new.shape ≡ self.old.shape }
        ensures replica { self.new.replica ≡ self.old.replica }
        ensures spare { self.new.room.spare ≡ self.old.room.spare }
        ensures ready { (q : List ℕ) → is_among self.new.room.ready q ≡ (is_among self.old.room.ready q
            && (not (same_key key.now q) || is_needed self.old.replica.items self.old.replica.log q)) }
        ensures owed { (owed : List ℕ → Bool) → IsTidyBut self.old owed
            → IsTidyBut self.new (λ q. owed q && not (same_key key.now q)) }
    {
        items::tidy(&mut self.index, &self.log, key);
    }
}

// How many runs have to fit for the updates of the log, of which each needs one to be settled or
// dropped, and for `spare` further ones, which need another to be received.
fn runs_needed(log: &Log<Updates>, spare: usize) -> usize
    requires { spare < 2 ^ 32 }
    ensures needed { result ≡ length log.now.updates + 2 * spare }
    ensures few { result < 2 ^ 63 + 2 ^ 33 }
{
    log.len() + 2 * spare
}
