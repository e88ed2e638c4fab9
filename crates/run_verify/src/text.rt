ghost use Rattle.std.specs.Prelude.{◌≡◌, ◌≤◌, length, Err};
ghost use Rattle.edge_io.specs.Faults.{HasCauseOf, Rose};
ghost use Rattle.run_verify.specs.Text.{HasJudged, HasToldLine, IsFoundOf, status_of_result, verified_line};

use crate::reading::read_text;
use crate::script::LONGEST_SHEET;
use crate::status::VerifyStatus;
use crate::verdict::Verdict;
use crate::verifying::verify;
use edge_io::{Sink, Source, write_all};
use std::alloc::Global;

/// Reads a script, the line `====` and a transcript from the source to its end, verifies them, and where all is checked
/// writes `verified`, the number of entries, and the number of lines that show bytes.
pub fn verify_text<S: Source, K: Sink>(alloc: Global, source: &mut S, sink: &mut K) -> VerifyStatus
    ensures judged { HasJudged (S.input source.old) (S.input source.new) (K.held sink.old) (K.held sink.new) result }
    ensures read { result ≡ VerifyStatus.ReadFault → Rose (S.faults source.old) (S.faults source.new) }
    ensures write { result ≡ VerifyStatus.WriteFault → Rose (K.faults sink.old) (K.faults sink.new) }
    ensures later { K.faults sink.old ≤ K.faults sink.new }
{
    match verify_source(alloc, source, sink) {
        Ok(()) => VerifyStatus::Done,
        Err(status) => status,
    }
}

fn verify_source<S: Source, K: Sink>(
    alloc: Global,
    source: &mut S,
    sink: &mut K,
) -> Result<(), VerifyStatus>
    ensures judged { HasJudged (S.input source.old) (S.input source.new) (K.held sink.old) (K.held sink.new)
        (status_of_result result) }
    ensures read { result ≡ Err VerifyStatus.ReadFault → Rose (S.faults source.old) (S.faults source.new) }
    ensures write { HasCauseOf (K.faults sink.old) (K.faults sink.new) result VerifyStatus.WriteFault }
{
    let text = read_text(alloc, source)?;
    let (entries, shown) = find(alloc, &text)?;
    tell(alloc, sink, entries, shown)
}

/// How many entries and lines that show bytes there are, where all is checked.
fn find(alloc: Global, text: &[u8]) -> Result<(u64, u64), VerifyStatus>
    requires { length text.now ≤ LONGEST_SHEET }
    ensures { IsFoundOf text.now result }
{
    match verify(alloc, text)? {
        Verdict::Verified { entries, shown } => Ok((entries, shown)),
        Verdict::Refused { line } => Err(VerifyStatus::Refused(line)),
    }
}

/// Tells that all is checked.
fn tell<K: Sink>(alloc: Global, sink: &mut K, entries: u64, shown: u64) -> Result<(), VerifyStatus>
    ensures told { HasToldLine (K.held sink.old) (K.held sink.new) (verified_line entries shown) result }
    ensures cause { HasCauseOf (K.faults sink.old) (K.faults sink.new) result VerifyStatus.WriteFault }
{
    let line = format!(in alloc; "verified {entries} {shown}\n")?;
    write_all(sink, line.as_bytes())?;
    Ok(())
}
