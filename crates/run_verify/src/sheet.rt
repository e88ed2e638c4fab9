ghost use Rattle.std.specs.Prelude.{◌≤◌, length, All, IfOk};
ghost use Rattle.run_verify.specs.Judging.{IsStepOf};
ghost use Rattle.run_verify.specs.Scripts.{HasReadLines, sheet_by};
ghost use Rattle.run_verify.specs.Sheet.{sheet_of};

use crate::script::{LONGEST_SHEET, Script, read_script, transcript_in};
use crate::verdict::VerifyFault;
use scenario_run::count_lines;
use std::alloc::Global;

/// Reads the script of a text, and finds its transcript.
pub(crate) fn read_sheet(alloc: Global, text: &[u8]) -> Result<(Script, &[u8]), VerifyFault>
    requires short { length text.now ≤ LONGEST_SHEET }
    ensures read { HasReadLines sheet_by (sheet_of text.now) result }
    ensures steps { IfOk result (λ sheet. All (IsStepOf sheet.0.shape) sheet.0.steps) }
    ensures shorter { IfOk result (λ sheet. length sheet.1.now ≤ length text.now) }
{
    let script = match read_script(alloc, text) {
        Ok(script) => script,
        Err(fault) => return Err(fault),
    };
    match transcript_in(text) {
        Some(transcript) => Ok((script, transcript)),
        None => Err(VerifyFault::BadLine(count_lines(text) as u64 + 1)),
    }
}
