// What updates do to the free runs.
ghost use Rattle.std.specs.Prelude.{◌≡◌, ℕ, ◌+◌, ◌<◌, ◌≤◌, length, All, IfSome, if◌then◌else◌};
ghost use Rattle.run_alloc.specs.Free.{AllFree, NoneFree, is_free_address};
ghost use Rattle.group_run.specs.Free.{in_run, in_some_run};
ghost use Rattle.std.specs.List.{list_any};
ghost use Rattle.group_run.specs.Replica.{run_of};
ghost use Rattle.partition_replica.specs.Moves.{GivesAddresses, TakesAddresses};
ghost use Rattle.partition_replica.specs.Sound.{log_runs, owners};

use crate::updates::Updates;
use group_message::{Body, Update};
use group_types::Run;
use request_log::Log;
use run_alloc::FreeRuns;

/// The run that an update writes, if it puts a value.
pub fn run_of(update: &Update) -> Option<Run>
    ensures { result ≡ run_of update.now.body }
{
    match update.body {
        Body::Put { run, .. } => Some(run),
        Body::Remove | Body::Touch { .. } => None,
    }
}

/// Takes a run, if there is one.
pub fn take_run(runs: &mut FreeRuns, run: Option<Run>)
    requires free { IfSome run (λ r. AllFree (is_free_address runs.old) r.at r.len) }
    requires room { 0 < runs.old.spare }
    ensures { TakesAddresses runs.old runs.new (λ a. in_some_run a run) 1 }
{
    if let Some(run) = run {
        runs.take_at(run.at, run.len);
    }
}

/// Gives a run back, if there is one.
pub fn give_run(runs: &mut FreeRuns, run: Option<Run>)
    requires inside { IfSome run (λ r. r.at + r.len ≤ runs.old.size) }
    requires taken { IfSome run (λ r. NoneFree (is_free_address runs.old) r.at r.len) }
    requires room { 0 < runs.old.spare }
    ensures { GivesAddresses runs.old runs.new (λ a. in_some_run a run) 1 }
{
    if let Some(run) = run {
        runs.give(run.at, run.len);
    }
}

/// Takes the runs that the updates of the log write, of which no two have an address in common.
pub fn take_runs(runs: &mut FreeRuns, log: &Log<Updates>)
    requires free { (a : ℕ) → owners a (log_runs log.now.updates) ≤ (if is_free_address runs.old a then 1 else 0) }
    requires room { length log.now.updates ≤ runs.old.spare }
    ensures { TakesAddresses runs.old runs.new (λ a. list_any (in_run a) (log_runs log.now.updates)) (length log.now.updates) }
{
    'updates: for update in log.iter() {
        take_run(runs, run_of(update));
    }
}

/// Gives back the runs that these updates write.
pub fn give_runs(runs: &mut FreeRuns, updates: &[Update])
    requires inside { All (λ r. r.at + r.len ≤ runs.old.size) (log_runs updates.now) }
    requires taken { (a : ℕ) → owners a (log_runs updates.now) ≤ (if is_free_address runs.old a then 0 else 1) }
    requires room { length updates.now ≤ runs.old.spare }
    ensures { GivesAddresses runs.old runs.new (λ a. list_any (in_run a) (log_runs updates.now)) (length updates.now) }
{
    'updates: for update in updates {
        give_run(runs, run_of(update));
    }
}
