ghost use Rattle.std.specs.Prelude.{◌≡◌, ◌+◌, ◌<◌, ◌≤◌, ◌==◌, ◌&&◌, false, None, All, IfOk, IfSome};
ghost use Rattle.group_types.specs.Dimensions.{space_of};
ghost use Rattle.run_alloc.specs.Free.{AllFree};
ghost use Rattle.group_run.specs.Free.{is_free, place_for};
ghost use Rattle.std.specs.List.{list_any};
ghost use Rattle.group_types.specs.Lists.{at};
ghost use Rattle.group_run.specs.Replica.{callers, empty_replica, last_of, number_on, slot_in};
ghost use Rattle.request_log.specs.Logged.{IsNumbered};
ghost use Rattle.group_run.specs.Fitting.{IsRunOf, Writes};
ghost use Rattle.partition_replica.specs.State.{IsTidyBut};

use crate::updates::Updates;
use group_message::{Kept, UpdateList};
use group_types::{CALLERS, Key, Run, Shape};
use item_index::{Index, Slot};
use request_log::Log;
use run_alloc::FreeRuns;
use std::alloc::{AllocError, Global};
use std::marker::Model;

mod coming;
mod listing;
mod moves;
mod room;
mod usage;

/// The replica of a partition at one process.
#[derive(Drop)]
pub struct Replica {
    shape: Shape,
    index: Index<Key>,
    runs: FreeRuns,
    log: Log<Updates>,
    kept: Vec<Option<Kept>>,
    spare: usize,
}

impl Model for Replica {
    ghost use Rattle.partition_replica.specs.State.{ReplicaState};

    ghost Value = { ReplicaState };

    ghost use Rattle.partition_replica.specs.Inside.{state_in, PartsAgree};

    ghost view = { λ r. state_in r.shape r.index r.log r.kept.items r.spare };

    ghost invariant = { λ r. PartsAgree (state_in r.shape r.index r.log r.kept.items r.spare) r.runs r.log.spare };
}

impl Replica {
    /// A replica with nothing applied and no item, whose whole space is free.
    pub fn new(alloc: Global, shape: Shape) -> Result<Replica, AllocError>
        ensures shape { IfOk result (λ r. r.shape ≡ shape) }
        ensures replica { IfOk result (λ r. r.replica ≡ empty_replica) }
        ensures owed { IfOk result (λ r. IsTidyBut r (λ _. false)) }
    {
        Ok(Replica {
            shape,
            index: Index::new(alloc),
            runs: FreeRuns::new(alloc, shape.space())?,
            log: Log::new(alloc),
            kept: vec![in alloc; None; CALLERS as usize]?,
            spare: 0,
        })
    }

    /// The number up to which updates are applied.
    pub fn applied(&self) -> u64
        ensures { result ≡ self.now.replica.applied }
    {
        self.log.applied()
    }

    /// The number of the last update, applied or in the log.
    pub fn last(&self) -> u64
        ensures last { result ≡ last_of self.now.replica }
        ensures numbered { IsNumbered (λ u. u.number) self.now.replica.applied self.now.replica.log }
    {
        self.log.last()
    }

    /// The settled item on a key.
    pub fn item(&self, key: &Key) -> Option<Slot>
        ensures item { result ≡ slot_in self.now.replica.items key.now }
        ensures inside { IfSome result (λ slot. slot.at + slot.len ≤ space_of self.now.shape) }
    {
        self.index.get(key)
    }

    /// The number of the last update on a key that isn't applied.
    pub fn unfinished(&self, key: &Key) -> Option<u64>
        ensures { result ≡ number_on self.now.replica.log key.now }
    {
        self.log.holds_key(key)
    }

    /// Whether the update of this call is in the log.
    pub fn waits(&self, caller: u32, call: u64) -> bool
        ensures { result ≡ list_any (λ u. u.caller == caller && u.call == call) self.now.replica.log }
    {
        self.log
            .iter()
            .any(|update| update.caller == caller && update.call == call)
    }

    /// What is kept of the caller's last applied update, if there was one.
    pub fn kept(&self, caller: u32) -> Option<Kept>
        requires { caller < callers }
        ensures { result ≡ at None self.now.replica.kept caller }
    {
        self.kept[caller as usize]
    }

    /// A copy of the log.
    pub fn waiting(&self) -> Result<UpdateList, AllocError>
        ensures log { IfOk result (λ list. list ≡ self.now.replica.log) }
        ensures writes { IfOk result (λ list. All (λ u. Writes (space_of self.now.shape) u.body) list) }
    {
        let mut list = Vec::new(*self.kept.allocator());
        'updates: for update in self.log.iter() {
            list.push(update.clone()?)?;
        }
        Ok(UpdateList::from(list))
    }

    /// The run that a value of `len` bytes gets: the front of the shortest free run that has them, the
    /// lowest on a tie. No bytes get the run of length 0 at 0.
    pub fn place(&self, len: u32) -> Option<Run>
        ensures place { result ≡ place_for (space_of self.now.shape) self.now.replica len }
        ensures run { IfSome result (λ run. IsRunOf (space_of self.now.shape) len run) }
        ensures free { IfSome result (λ run. AllFree (is_free (space_of self.now.shape) self.now.replica) run.at
            run.len) }
    {
        if len == 0 {
            return Some(Run { at: 0, len });
        }
        let at = self.runs.fits(len)?;
        Some(Run { at, len })
    }
}

// Tests that no value is kept beside these parts: a further field, or one of another type, does not compile.
fn keeps_no_value_beside_its_parts(replica: &Replica) {
    let Replica {
        shape,
        index,
        runs,
        log,
        kept,
        spare,
    } = replica;
    let _: &Shape = shape;
    let _: &Index<Key> = index;
    let _: &FreeRuns = runs;
    let _: &Log<Updates> = log;
    let _: &Vec<Option<Kept>> = kept;
    let _: &usize = spare;
}
