ghost use Rattle.std.specs.Prelude.{◌≡◌, ◌++◌, ◌+◌, ◌<◌, ◌≤◌, ◌∷◌, ◌^◌, [], length, IfOk, OnOk};
ghost use Rattle.scenario_text.specs.Texts.{many_placed, place_text, places_text};

use group_types::{Partition, Run};
use std::alloc::{AllocError, Global};

/// The runs of a partition's updates behind this number, each on a line, and how many there are.
pub fn write_places(
    alloc: Global,
    partition: Partition,
    base: u64,
    runs: &[Option<Run>],
    text: &mut Vec<u8>,
) -> Result<u64, AllocError>
    requires { base + length runs.now < 2 ^ 64 }
    ensures text { OnOk result (text.new.items ≡ text.old.items ++ places_text partition.0 base runs.now) }
    ensures count { IfOk result (λ count. count ≡ many_placed runs.now) }
    ensures lines { IfOk result (λ count. length text.old.items + count ≤ length text.new.items) }
{
    let mut number = base;
    let mut count: u64 = 0;
    'runs: for run in runs {
        number += 1;
        if let Some(run) = run {
            write_place(alloc, partition, number, *run, text)?;
            count += 1;
        }
    }
    Ok(count)
}

/// The run of an update, on a line.
fn write_place(
    alloc: Global,
    partition: Partition,
    number: u64,
    run: Run,
    text: &mut Vec<u8>,
) -> Result<(), AllocError>
    ensures { OnOk result (text.new.items ≡ text.old.items ++ place_text partition.0 number run ++ 10 ∷ []) }
{
    let line = format!(in alloc; "place {} {number} {} {}\n", partition.0, run.at, run.len)?;
    text.extend_from_slice(line.as_bytes())
}
