// Runs that have no address in common.
ghost use Rattle.std.specs.Prelude.{◌↔◌, ◌≡◌, ℕ, true, false, IsTrue};
ghost use Rattle.std.specs.List.{list_any};
ghost use Rattle.group_run.specs.Free.{in_run, in_some_run};
ghost use Rattle.partition_replica.specs.Coming.{IsClearOf, ShareNoAddress};
ghost use Rattle.partition_replica.specs.Sound.{log_runs};

use crate::runs::run_of;
use group_message::Update;
use group_types::Run;

/// Whether no address of a run is in one that these updates write.
pub fn is_clear_of(run: Option<Run>, updates: &[Update]) -> bool
    ensures { IsTrue result ↔ IsClearOf run updates.now }
{
    'updates: for update in updates {
        if !are_clear(run, run_of(update)) {
            return false;
        }
    }
    true
}

fn are_clear(one: Option<Run>, other: Option<Run>) -> bool
    ensures { IsTrue result ↔ ShareNoAddress one other }
{
    match (one, other) {
        (Some(one), Some(other)) => !do_meet(one, other),
        _ => true,
    }
}

// Of two runs that meet, the one that begins first goes on where the other begins.
fn do_meet(one: Run, other: Run) -> bool
    ensures { IsTrue result ↔ ((a : ℕ) × (in_run a one ≡ true) × (in_run a other ≡ true)) }
{
    one.at.saturating_sub(other.at) < other.len && other.at.saturating_sub(one.at) < one.len
}
