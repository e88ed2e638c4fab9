// What updates do to an index of items.
ghost use Rattle.std.specs.Prelude.{true, ◌≡◌, ℕ, List, All, IsOk, OnOk, ◌||◌, ◌&&◌, not};
ghost use Rattle.group_message.specs.declared.update.Body.TheVariants.{Touch};
ghost use Rattle.std.specs.List.{list_any};
ghost use Rattle.group_types.specs.Lists.{same_key};
ghost use Rattle.group_run.specs.Replica.{item_settled, slot_after, slot_in, with_slot};
ghost use Rattle.partition_replica.specs.Inside.{items_in, ready_in};
ghost use Rattle.partition_replica.specs.State.{is_among, is_needed, is_touched};

use crate::updates::Updates;
use group_message::{Body, Update};
use group_types::Key;
use item_index::{Index, Slot};
use request_log::Log;
use std::alloc::AllocError;

/// Makes the keys of these updates ready.
pub fn prepare(index: &mut Index<Key>, updates: &[Update]) -> Result<(), AllocError>
    ensures items { items_in index.new ≡ items_in index.old }
    ensures kept { (q : List ℕ) → is_among (ready_in index.old) q ≡ true → is_among (ready_in index.new) q ≡ true }
    ensures ready { OnOk result (All (λ u. is_among (ready_in index.new) u.key ≡ true) updates.now) }
    ensures most { (q : List ℕ) → is_among (ready_in index.new) q ≡ true
        → (is_among (ready_in index.old) q || is_touched updates.now q) ≡ true }
    ensures succeeds { All (λ u. is_among (ready_in index.old) u.key ≡ true) updates.now → IsOk result }
{
    'updates: for update in updates {
        index.prepare(&update.key)?;
    }
    Ok(())
}

/// Gives the key of an update the item that it leaves. It takes no memory.
pub fn settle(index: &mut Index<Key>, update: &Update)
    requires { is_among (ready_in index.old) update.now.key ≡ true }
    ensures items { items_in index.new ≡ item_settled update.now (items_in index.old) }
    ensures ready { ready_in index.new ≡ ready_in index.old }
{
    match &update.body {
        Body::Put {
            flags,
            until,
            run,
            ..
        } => {
            let slot = Slot {
                at: run.at,
                len: run.len,
                flags: *flags,
                cas: update.number,
                until: *until,
            };
            index.put(&update.key, slot);
        }
        Body::Remove => index.remove(&update.key),
        Body::Touch { until } => touch(index, &update.key, *until),
    }
}

/// Gives the item on a key, if there is one, another end.
fn touch(index: &mut Index<Key>, key: &Key, until: Option<u64>)
    ensures items { (n : ℕ) → items_in index.new
        ≡ with_slot key.now (slot_after n (Touch until) (slot_in (items_in index.old) key.now)) (items_in index.old) }
    ensures ready { ready_in index.new ≡ ready_in index.old }
{
    if let Some(slot) = index.get(key) {
        let slot = Slot { until, ..slot };
        index.put(key, slot);
    }
}

/// Ends the readiness of a key that has no item and no update in the log.
pub fn tidy(index: &mut Index<Key>, log: &Log<Updates>, key: &Key)
    ensures items { items_in index.new ≡ items_in index.old }
    ensures ready { (q : List ℕ) → is_among (ready_in index.new) q
        ≡ (is_among (ready_in index.old) q && (not (same_key key.now q) || is_needed (items_in index.old)
        log.now.updates q)) }
{
    if log.holds_key(key).is_none() {
        index.tidy(key);
    }
}

/// The same for the keys of updates that were dropped.
pub fn tidy_dropped(index: &mut Index<Key>, log: &Log<Updates>, dropped: &[Update])
    ensures items { items_in index.new ≡ items_in index.old }
    ensures ready { (q : List ℕ) → is_among (ready_in index.new) q
        ≡ (is_among (ready_in index.old) q && (not (list_any (λ u. same_key u.key q) dropped.now) || is_needed
        (items_in index.old) log.now.updates q)) }
{
    'dropped: for update in dropped {
        tidy(index, log, &update.key);
    }
}
