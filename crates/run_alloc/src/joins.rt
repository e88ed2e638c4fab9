// A run that is joined with its neighbours.
ghost use Rattle.std.specs.Prelude.{◌≡◌, ◌≢◌, ◌+◌, ◌<◌, ◌≤◌, ◌^◌};
ghost use Rattle.std.specs.List.{All};
ghost use Rattle.run_alloc.specs.Runs.{IsSpread, IsApart, IsClear, IsWidened, IsJoined};

use crate::order::Run;
use crate::runs::Runs;

/// Adds a run, joined with the neighbours that it touches.
pub fn join(kept: &mut Runs, run: Run)
    requires inside { run.at + run.len < 2 ^ 32 }
    requires spread { IsSpread 0 kept.old.runs (2 ^ 32) }
    requires some { 0 < run.len }
    requires clear { All (IsClear run) kept.old.runs }
    requires room { 0 < kept.old.spare }
    ensures joined { IsJoined kept.old.runs kept.new.runs run.at run.len }
    ensures spare { kept.old.spare ≤ kept.new.spare + 1 }
    ensures most { kept.new.spare ≤ kept.old.spare + 1 }
{
    let run = join_behind(kept, run);
    let run = join_before(kept, run);
    kept.add(run);
}

/// The run with the one that begins at its end, which is taken out.
fn join_behind(kept: &mut Runs, run: Run) -> Run
    requires inside { run.at + run.len < 2 ^ 32 }
    requires spread { IsSpread 0 kept.old.runs (2 ^ 32) }
    requires clear { All (IsClear run) kept.old.runs }
    ensures widened { IsWidened kept.old.runs kept.new.runs run result }
    ensures clear { All (IsClear result) kept.new.runs }
    ensures behind { All (λ other. other.at ≢ result.at + result.len) kept.new.runs }
    ensures spare { kept.old.spare ≤ kept.new.spare }
    ensures most { kept.new.spare ≤ kept.old.spare + 1 }
{
    match kept.from(run.at + run.len) {
        Some(next) => {
            kept.remove(next);
            Run {
                at: run.at,
                len: run.len + next.len,
            }
        }
        None => run,
    }
}

/// The run with the one that ends at its beginning, which is taken out.
fn join_before(kept: &mut Runs, run: Run) -> Run
    requires inside { run.at + run.len < 2 ^ 32 }
    requires spread { IsSpread 0 kept.old.runs (2 ^ 32) }
    requires clear { All (IsClear run) kept.old.runs }
    requires behind { All (λ other. other.at ≢ run.at + run.len) kept.old.runs }
    ensures widened { IsWidened kept.old.runs kept.new.runs run result }
    ensures apart { All (IsApart result) kept.new.runs }
    ensures spare { kept.old.spare ≤ kept.new.spare }
    ensures most { kept.new.spare ≤ kept.old.spare + 1 }
{
    match kept.to(run.at) {
        Some(last) => {
            kept.remove(last);
            Run {
                at: last.at,
                len: last.len + run.len,
            }
        }
        None => run,
    }
}
