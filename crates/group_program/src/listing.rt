ghost use Rattle.std.specs.Prelude.{◌≡◌, ◌≢◌};
ghost use Rattle.edge_io.specs.Faults.{Rose};
ghost use Rattle.scenario_play.specs.Outside.{outside};
ghost use Rattle.group_program.specs.Frames.{IsListed, status_of};

use edge_io::{Sink, Source};
use scenario_play::Status;
use scenario_play::tell::tell;
use std::alloc::Global;
use wire_frames::{FramesStatus, frames};

/// Writes a line for each message of a stream of frames, and then the last line of the status.
pub(crate) fn list_frames<S: Source, K: Sink>(alloc: Global, source: &mut S, sink: &mut K) -> Status
    ensures listed { IsListed (outside (S.input source.old) (S.faults source.old) (K.held sink.old) (K.faults sink.old))
        (outside (S.input source.new) (S.faults source.new) (K.held sink.new) (K.faults sink.new)) result }
    ensures named { result ≢ Status.BadWords }
    ensures read { result ≡ Status.ReadFault → Rose (S.faults source.old) (S.faults source.new) }
    ensures write { result ≡ Status.WriteFault → Rose (K.faults sink.old) (K.faults sink.new) }
{
    let end = frames(alloc, source, sink);
    tell(alloc, sink, status_of(end))
}

/// The status of a stream of frames that ended so.
fn status_of(end: FramesStatus) -> Status
    ensures { result ≡ status_of end }
{
    match end {
        FramesStatus::Done => Status::Done,
        FramesStatus::Cut => Status::Cut,
        FramesStatus::BadFrame(at) => Status::BadFrame(at),
        FramesStatus::Worn => Status::Worn,
        FramesStatus::ReadFault => Status::ReadFault,
        FramesStatus::WriteFault => Status::WriteFault,
        FramesStatus::Want => Status::Want,
    }
}
