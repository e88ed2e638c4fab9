ghost use Rattle.std.specs.Prelude.{◌≤◌, length, IfOk};
ghost use Rattle.edge_io.specs.Reading.{bytes_in};
ghost use Rattle.scenario_play.specs.Ends.{HasReadInput};

use crate::status::Status;
use edge_io::{Source, read_whole};
use std::alloc::Global;

/// The most bytes that a script has.
pub(crate) const LONGEST_SCRIPT: usize = 16_777_216;

/// Reads the source to its end, or to the first byte above the limit.
pub(crate) fn read_script<S: Source>(alloc: Global, source: &mut S) -> Result<Vec<u8>, Status>
    ensures end { HasReadInput (S.input source.old) (S.input source.new) (S.faults source.old) (S.faults source.new)
        (bytes_in result) }
    ensures limit { IfOk result (λ text. length text.items ≤ LONGEST_SCRIPT) }
{
    Ok(read_whole(alloc, source, LONGEST_SCRIPT)?)
}
