ghost use Rattle.std.specs.Prelude.{◌↔◌, ◌≡◌, suc, ◌+◌, ◌-◌, ◌<◌, ◌≤◌, ◌^◌, length, drop, IsTrue, IfSome, Some, true, false};
ghost use Rattle.group_types.specs.Dimensions.{space_of};
ghost use Rattle.run_alloc.specs.Free.{AllFree};
ghost use Rattle.group_run.specs.Free.{is_free};
ghost use Rattle.group_run.specs.Replica.{applied_to, items_after, last_of};
ghost use Rattle.group_run.specs.Fitting.{AdoptFits, AllCanCome, CanCome, NumberedFrom, UpdateFits, Writes};
ghost use Rattle.partition_replica.specs.Coming.{AreFree, IsWritten, freed_from, item_run_on, once_applied, replaced};
ghost use Rattle.partition_replica.specs.Sound.{IsSoundReplica};

use super::Replica;
use crate::clear::is_clear_of;
use crate::left::{freed_from, run_behind, run_in, runs_behind};
use crate::returned::returned_from;
use crate::runs::run_of;
use group_message::{Body, Update, UpdateList};
use group_types::{CALLERS, Key, Run};

/// How many updates a log may have.
const WINDOW: u64 = 256;

impl Replica {
    /// Whether an update is the next one, and can come once everything up to `stable` is applied. It
    /// takes no memory.
    pub fn may_follow(&self, update: &Update, stable: u64) -> bool
        ensures { IsTrue result ↔ UpdateFits self.now.shape self.now.replica update.now stable }
    {
        let last = self.log.last();
        is_next(last, update.number)
            && stable <= last
            && last - stable.max(self.log.applied()) < WINDOW
            && self.can_come(update, stable)
    }

    /// Whether a new head's list, whose updates have the numbers above `base`, can take the place of
    /// the log, once everything up to `base` is applied. It takes no memory.
    pub fn may_adopt(&self, base: u64, list: &UpdateList) -> bool
        ensures { IsTrue result ↔ AdoptFits self.now.shape self.now.replica base list.now }
    {
        let updates = list.updates();
        updates.len() as u64 <= WINDOW
            && base <= self.log.last()
            && are_numbered(base, updates)
            && self.may_take(base, updates)
    }

    /// Whether an update can come once everything up to `stable` is applied.
    pub fn can_come(&self, update: &Update, stable: u64) -> bool
        ensures { IsTrue result ↔ CanCome (space_of self.now.shape) (applied_to stable self.now.replica) update.now }
    {
        self.is_written(update, self.last(), &[])
            && self.is_free_once(run_of(update), stable, false)
    }

    /// The run of the item that the log's updates leave on a key.
    pub fn run_left(&self, key: &Key) -> Option<Run>
        ensures { result ≡ item_run_on (items_after self.now.replica.items self.now.replica.log) key.now }
    {
        self.run_once(key, self.log.last())
    }

    // The run of the item on a key once everything up to `stable` is applied.
    fn run_once(&self, key: &Key, stable: u64) -> Option<Run>
        ensures run { result ≡ item_run_on (applied_to stable self.now.replica).items key.now }
        ensures sound { IsSoundReplica (space_of self.now.shape) (applied_to stable self.now.replica) }
    {
        let mut run = run_in(self.index.get(key));
        'updates: for update in self.log.iter() {
            if update.number <= stable {
                run = run_behind(update, key, run);
            }
        }
        run
    }

    // The run of the item on a key behind these updates, once everything up to `stable` is applied.
    fn run_at_last(&self, key: &Key, stable: u64, earlier: &[Update]) -> Option<Run>
        ensures run { result ≡ item_run_on (items_after (applied_to stable self.now.replica).items earlier.now) key.now }
        ensures sound { IsSoundReplica (space_of self.now.shape) (applied_to stable self.now.replica) }
    {
        runs_behind(earlier, key, self.run_once(key, stable))
    }

    // Whether the update's caller is one, its value has a run, and it gives back what it has to behind
    // these updates, once everything up to `stable` is applied.
    fn is_written(&self, update: &Update, stable: u64, earlier: &[Update]) -> bool
        ensures written { IsTrue result ↔ IsWritten (space_of self.now.shape) update.now
            (item_run_on (items_after (applied_to stable self.now.replica).items earlier.now) update.now.key) }
        ensures sound { IsTrue result → IsSoundReplica (space_of self.now.shape) (applied_to stable self.now.replica) }
        ensures small { space_of self.now.shape < 2 ^ 32 }
    {
        self.writes(&update.body) && update.caller < CALLERS && self.frees(update, stable, earlier)
    }

    // Whether the update gives back what it has to.
    fn frees(&self, update: &Update, stable: u64, earlier: &[Update]) -> bool
        ensures frees { IsTrue result ↔ (update.now.frees ≡ freed_from update.now.body
            (item_run_on (items_after (applied_to stable self.now.replica).items earlier.now) update.now.key)) }
        ensures sound { IsSoundReplica (space_of self.now.shape) (applied_to stable self.now.replica) }
    {
        let left = self.run_at_last(&update.key, stable, earlier);
        update.frees == freed_from(&update.body, left)
    }

    // Whether a value that is put has a run of its length, in the space.
    fn writes(&self, body: &Body) -> bool
        ensures writes { IsTrue result ↔ Writes (space_of self.now.shape) body.now }
        ensures small { space_of self.now.shape < 2 ^ 32 }
    {
        let space = self.shape.space();
        match body {
            Body::Put { run, delta, .. } => {
                run.len as usize == delta.len() && run.at <= space && run.len <= space - run.at
            }
            Body::Remove | Body::Touch { .. } => true,
        }
    }

    // Whether each address of a run is free once everything up to `stable` is applied, and the rest of
    // the log dropped, or not.
    fn is_free_once(&self, run: Option<Run>, stable: u64, drops: bool) -> bool
        requires inside { IfSome run (λ r. r.at + r.len ≤ space_of self.now.shape) }
        requires small { space_of self.now.shape < 2 ^ 32 }
        ensures { IsTrue result
            ↔ AreFree (space_of self.now.shape) (once_applied drops stable self.now.replica) run }
    {
        match run {
            Some(run) => self.are_free_once(run, stable, drops),
            None => true,
        }
    }

    fn are_free_once(&self, run: Run, stable: u64, drops: bool) -> bool
        requires inside { run.at + run.len ≤ space_of self.now.shape }
        requires small { space_of self.now.shape < 2 ^ 32 }
        ensures { IsTrue result
            ↔ AreFree (space_of self.now.shape) (once_applied drops stable self.now.replica) (Some run) }
    {
        let mut at = run.at;
        let mut left = run.len;
        'parts: while left > 0 {
            let part = self.free_from(at, stable, drops).min(left);
            if part == 0 {
                return false;
            }
            at += part;
            left -= part;
        }
        true
    }

    // How many addresses from `at` on are free then, as far as one free run or one that comes back goes.
    fn free_from(&self, at: u32, stable: u64, drops: bool) -> u32
        ensures free { AllFree (is_free (space_of self.now.shape) (once_applied drops stable self.now.replica))
            at result }
        ensures none { result ≡ 0
            → is_free (space_of self.now.shape) (once_applied drops stable self.now.replica) at ≡ false }
    {
        let free = self.runs.free_to(at) - at;
        if free > 0 {
            free
        } else {
            returned_from(&self.log, at, stable, drops)
        }
    }

    // Whether the list reaches what is applied once everything up to `base` is, and those of its
    // updates that are above that can come then.
    fn may_take(&self, base: u64, updates: &[Update]) -> bool
        requires { base ≤ last_of self.now.replica }
        ensures { IsTrue result ↔ (((applied_to base self.now.replica).applied ≤ base + length updates.now)
            × AllCanCome (space_of self.now.shape) (once_applied true base self.now.replica)
            (drop ((applied_to base self.now.replica).applied - base) updates.now)) }
    {
        let done = base.max(self.log.applied()) - base;
        done <= updates.len() as u64 && self.all_can_come(base, &updates[done as usize..])
    }

    fn all_can_come(&self, base: u64, updates: &[Update]) -> bool
        ensures { IsTrue result
            ↔ AllCanCome (space_of self.now.shape) (once_applied true base self.now.replica) updates.now }
    {
        'updates: for index in 0..updates.len() {
            if !self.can_come_behind(base, &updates[..index], &updates[index]) {
                return false;
            }
        }
        true
    }

    // Whether an update can come behind others, in place of the log, once everything up to `base` is applied.
    fn can_come_behind(&self, base: u64, earlier: &[Update], update: &Update) -> bool
        requires { AllCanCome (space_of self.now.shape) (once_applied true base self.now.replica) earlier.now }
        ensures { IsTrue result
            ↔ CanCome (space_of self.now.shape) (replaced base earlier.now self.now.replica) update.now }
    {
        self.is_written(update, base, earlier) && self.is_free_behind(run_of(update), base, earlier)
    }

    // Whether each address of a run is free behind others, in place of the log.
    fn is_free_behind(&self, run: Option<Run>, base: u64, earlier: &[Update]) -> bool
        requires inside { IfSome run (λ r. r.at + r.len ≤ space_of self.now.shape) }
        requires small { space_of self.now.shape < 2 ^ 32 }
        requires sound { IsSoundReplica (space_of self.now.shape) (applied_to base self.now.replica) }
        requires come { AllCanCome (space_of self.now.shape) (once_applied true base self.now.replica) earlier.now }
        ensures { IsTrue result
            ↔ AreFree (space_of self.now.shape) (replaced base earlier.now self.now.replica) run }
    {
        is_clear_of(run, earlier) && self.is_free_once(run, base, true)
    }
}

fn are_numbered(base: u64, updates: &[Update]) -> bool
    ensures { IsTrue result ↔ NumberedFrom (suc base) updates.now }
{
    let mut last = base;
    'updates: for update in updates {
        if !is_next(last, update.number) {
            return false;
        }
        last = update.number;
    }
    true
}

fn is_next(last: u64, number: u64) -> bool
    ensures { IsTrue result ↔ (number ≡ suc last) }
{
    last < number && number - last == 1
}
