// A run that is cut.
ghost use Rattle.std.specs.Prelude.{◌≡◌, ◌+◌, ◌<◌, ◌≤◌, ◌⊎◌, ◌^◌};
ghost use Rattle.std.specs.List.{All, Contains};
ghost use Rattle.run_alloc.specs.declared.order.Run.{Run};
ghost use Rattle.run_alloc.specs.Runs.{IsSpread, IsApart, IsCut, IsJoined};

use crate::order::Run;
use crate::runs::Runs;

/// Takes `len` addresses from `at` on out of the run, and keeps what stands before and behind them.
pub fn carve(kept: &mut Runs, run: Run, at: u32, len: u32)
    requires kept { Contains kept.old.runs run }
    requires spread { IsSpread 0 kept.old.runs (2 ^ 32) }
    requires some { 0 < len }
    requires begins { run.at ≤ at }
    requires ends { at + len ≤ run.at + run.len }
    requires room { (run.at ≡ at) ⊎ (0 < kept.old.spare) }
    ensures cut { IsCut kept.old.runs kept.new.runs at len }
    ensures spare { kept.old.spare ≤ kept.new.spare + 1 }
    ensures whole { run.at ≡ at → kept.old.spare ≤ kept.new.spare }
    ensures most { kept.new.spare ≤ kept.old.spare + 1 }
{
    let front = Run {
        at: run.at,
        len: at - run.at,
    };
    let behind = Run {
        at: at + len,
        len: run.len - front.len - len,
    };
    kept.remove(run);
    put_back(kept, front);
    put_back(kept, behind);
}

/// Adds a run if it has an address.
fn put_back(kept: &mut Runs, run: Run)
    requires apart { All (IsApart run) kept.old.runs }
    requires inside { run.at + run.len < 2 ^ 32 }
    requires room { 0 < run.len → 0 < kept.old.spare }
    ensures joined { IsJoined kept.old.runs kept.new.runs run.at run.len }
    ensures others { (other : Run) → Contains kept.new.runs other → Contains kept.old.runs other ⊎ (run ≡ other) }
    ensures some { 0 < run.len → kept.new.spare + 1 ≡ kept.old.spare }
    ensures none { run.len ≡ 0 → kept.new.spare ≡ kept.old.spare }
{
    if run.len > 0 {
        kept.add(run);
    }
}
