ghost use Rattle.std.specs.Prelude.{◌≡◌, ℕ, ◌+◌, ◌-◌, ◌≤◌, ◌||◌, ◌&&◌, not, [], ◌∷◌, length, drop, Bool, List, IfSome};
ghost use Rattle.std.specs.Option.{option_to_list};
ghost use Rattle.std.specs.List.{slice_get};
ghost use Rattle.group_types.specs.Dimensions.{space_of};
ghost use Rattle.std.specs.List.{list_any};
ghost use Rattle.group_types.specs.Lists.{same_key};
ghost use Rattle.group_run.specs.Replica.{applied_to, last_of, with_log, with_update};
ghost use Rattle.request_log.specs.Logged.{IsNumbered};
ghost use Rattle.group_run.specs.Fitting.{AllCanCome, CanCome, Writes};
ghost use Rattle.partition_replica.specs.State.{HasRoom, IsTidyBut, is_among, is_needed, is_touched};

use super::Replica;
use crate::items;
use crate::runs::{give_run, give_runs, run_of, take_run, take_runs};
use group_message::{Kept, Update, UpdateList};
use request_log::Taken;

impl Replica {
    /// Adds the next update to the log. It takes no memory.
    pub fn receive(&mut self, update: Update)
        requires next { update.number ≡ last_of self.old.replica + 1 }
        requires fits { CanCome (space_of self.old.shape) self.old.replica update }
        requires room { HasRoom self.old.room (update ∷ []) }
        ensures shape { self.new.shape ≡ self.old.shape }
        ensures replica { self.new.replica ≡ with_update update self.old.replica }
        ensures room { self.new.room ≡ record self.old.room { spare = self.old.room.spare - 1 } }
        ensures owed { (owed : List ℕ → Bool) → IsTidyBut self.old owed → IsTidyBut self.new owed }
    {
        take_run(&mut self.runs, run_of(&update));
        self.spare -= 1;
        self.log.push(update);
    }

    /// Settles the first update of the log, and hands it out. It takes no memory. The caller owes a
    /// `tidy` of the update's key.
    pub fn settle_next(&mut self) -> Option<Update>
        ensures handed { result ≡ slice_get self.old.replica.log 0 }
        ensures number { IfSome result (λ u. u.number ≡ self.old.replica.applied + 1) }
        ensures writes { IfSome result (λ u. Writes (space_of self.old.shape) u.body) }
        ensures shape { self.new.shape ≡ self.old.shape }
        ensures replica { self.new.replica ≡ applied_to (self.old.replica.applied + 1) self.old.replica }
        ensures room { self.new.room ≡ self.old.room }
        ensures owed { (owed : List ℕ → Bool) → IsTidyBut self.old owed
            → IsTidyBut self.new (λ q. owed q || is_touched (option_to_list result) q) }
    {
        let update = self.log.apply_next()?;
        items::settle(&mut self.index, &update);
        self.kept[update.caller as usize] = Some(Kept {
            call: update.call,
            outcome: update.outcome,
        });
        give_run(&mut self.runs, update.frees);
        Some(update)
    }

    /// Drops the log, and takes in its place those updates of `list` that are above the applied number;
    /// the numbers of `list` run from `base + 1` on. It takes no memory, and leaves no room. A key that
    /// only a dropped update was on is ready no longer; those of the updates of `list` that are not
    /// taken stay ready until `tidy`.
    pub fn adopt(&mut self, base: u64, list: UpdateList)
        requires base { base ≤ self.old.replica.applied }
        requires numbers { IsNumbered (λ u. u.number) base list }
        requires reach { self.old.replica.applied ≤ base + length list }
        requires fits { AllCanCome (space_of self.old.shape) (with_log [] self.old.replica)
            (drop (self.old.replica.applied - base) list) }
        requires room { HasRoom self.old.room list }
        ensures shape { self.new.shape ≡ self.old.shape }
        ensures replica { self.new.replica ≡ with_log (drop (self.old.replica.applied - base) list) self.old.replica }
        ensures spare { self.new.room.spare ≡ 0 }
        ensures ready { (q : List ℕ) → is_among self.new.room.ready q ≡ (is_among self.old.room.ready q
            && (not (list_any (λ u. same_key u.key q) self.old.replica.log) || is_needed self.new.replica.items self.new.replica.log q)) }
        ensures owed { (owed : List ℕ → Bool) → IsTidyBut self.old owed → IsTidyBut self.new owed }
    {
        let dropped = self.log.adopt(base, Taken::new(Vec::from(list)));
        give_runs(&mut self.runs, dropped.as_slice());
        take_runs(&mut self.runs, &self.log);
        items::tidy_dropped(&mut self.index, &self.log, dropped.as_slice());
        self.spare = 0;
    }
}
