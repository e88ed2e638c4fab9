ghost use Rattle.std.specs.Prelude.{◌≤◌, length, IfOk};
ghost use Rattle.edge_io.specs.Reading.{bytes_in};
ghost use Rattle.run_verify.specs.Text.{HasReadText};

use crate::script::LONGEST_SHEET;
use crate::status::VerifyStatus;
use edge_io::{Source, read_whole};
use std::alloc::Global;

/// Reads the source to its end, or to the first byte above the limit.
pub(crate) fn read_text<S: Source>(alloc: Global, source: &mut S) -> Result<Vec<u8>, VerifyStatus>
    ensures read { HasReadText (S.input source.old) (S.input source.new) (S.faults source.old) (S.faults source.new)
        (bytes_in result) }
    ensures limit { IfOk result (λ text. length text.items ≤ LONGEST_SHEET) }
{
    Ok(read_whole(alloc, source, LONGEST_SHEET)?)
}
