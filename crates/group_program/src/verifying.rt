ghost use Rattle.std.specs.Prelude.{◌≡◌, ◌≢◌};
ghost use Rattle.edge_io.specs.Faults.{Rose};
ghost use Rattle.scenario_play.specs.Outside.{outside};
ghost use Rattle.group_program.specs.Verifying.{IsTranscriptJudged, status_of};

use edge_io::{Sink, Source};
use run_verify::{VerifyStatus, verify_text};
use scenario_play::Status;
use scenario_play::tell::tell;
use std::alloc::Global;

/// Checks a transcript by its script, writes what came of it, and then the last line of the status.
pub(crate) fn judge<S: Source, K: Sink>(alloc: Global, source: &mut S, sink: &mut K) -> Status
    ensures judged { IsTranscriptJudged (outside (S.input source.old) (S.faults source.old) (K.held sink.old) (K.faults sink.old))
        (outside (S.input source.new) (S.faults source.new) (K.held sink.new) (K.faults sink.new)) result }
    ensures named { result ≢ Status.BadWords }
    ensures read { result ≡ Status.ReadFault → Rose (S.faults source.old) (S.faults source.new) }
    ensures write { result ≡ Status.WriteFault → Rose (K.faults sink.old) (K.faults sink.new) }
{
    let end = verify_text(alloc, source, sink);
    tell(alloc, sink, status_of(end))
}

/// The status of a transcript that was judged so.
fn status_of(end: VerifyStatus) -> Status
    ensures { result ≡ status_of end }
{
    match end {
        VerifyStatus::Done => Status::Done,
        VerifyStatus::Refused(line) => Status::Refused(line),
        VerifyStatus::BadLine(line) => Status::BadLine(line),
        VerifyStatus::BadShape(field) => Status::BadShape(field),
        VerifyStatus::TooLong => Status::TooLong,
        VerifyStatus::ReadFault => Status::ReadFault,
        VerifyStatus::WriteFault => Status::WriteFault,
        VerifyStatus::Want => Status::Want,
    }
}
