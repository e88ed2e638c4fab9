ghost use Rattle.std.specs.Prelude.{◌≡◌, ◌≢◌};
ghost use Rattle.edge_io.specs.Faults.{Rose};
ghost use Rattle.group_types.specs.Dimensions.{Dimensions};
ghost use Rattle.group_types.specs.Shape.{IsShape};
ghost use Rattle.scenario_play.specs.Outside.{outside};
ghost use Rattle.group_program.specs.Session.{HasServedFresh, IsSession, status_of};

use edge_io::{Clock, Sink, Source};
use group_types::Shape;
use scenario_play::Status;
use scenario_play::tell::tell;
use scenario_session::{SessionEnd, session};
use std::alloc::Global;

/// Serves one connection over a fresh group of these numbers. A number that is out of range is told before anything is
/// read.
pub(crate) fn serve_session<S: Source, K: Sink, T: Clock>(
    alloc: Global,
    k: u32,
    m: u32,
    blocks: u32,
    block: u32,
    source: &mut S,
    sink: &mut K,
    clock: &T,
) -> Status
    ensures session { IsSession (record { k = k; m = m; blocks = blocks; block = block }) (T.moment clock.now)
        (outside (S.input source.old) (S.faults source.old) (K.held sink.old) (K.faults sink.old))
        (outside (S.input source.new) (S.faults source.new) (K.held sink.new) (K.faults sink.new)) result }
    ensures unshaped { let asked : Dimensions = record { k = k; m = m; blocks = blocks; block = block } in ¬
        (IsShape asked) → source.new ≡ source.old }
    ensures named { result ≢ Status.BadWords }
    ensures read { result ≡ Status.ReadFault → Rose (S.faults source.old) (S.faults source.new) }
    ensures write { result ≡ Status.WriteFault → Rose (K.faults sink.old) (K.faults sink.new) }
{
    match Shape::new(k, m, blocks, block) {
        Ok(shape) => serve_shape(alloc, shape, source, sink, clock),
        Err(bad) => tell(alloc, sink, Status::BadShape(bad.field)),
    }
}

/// Serves one connection over a fresh group of this shape.
fn serve_shape<S: Source, K: Sink, T: Clock>(
    alloc: Global,
    shape: Shape,
    source: &mut S,
    sink: &mut K,
    clock: &T,
) -> Status
    ensures served { HasServedFresh shape (T.moment clock.now)
        (outside (S.input source.old) (S.faults source.old) (K.held sink.old) (K.faults sink.old))
        (outside (S.input source.new) (S.faults source.new) (K.held sink.new) (K.faults sink.new)) result }
    ensures named { result ≢ Status.BadWords }
    ensures read { result ≡ Status.ReadFault → Rose (S.faults source.old) (S.faults source.new) }
    ensures write { result ≡ Status.WriteFault → Rose (K.faults sink.old) (K.faults sink.new) }
{
    let end = session(alloc, shape, source, sink, clock);
    tell(alloc, sink, status_of(end))
}

/// The status of a session that ended so.
fn status_of(end: SessionEnd) -> Status
    ensures { result ≡ status_of end }
{
    match end {
        SessionEnd::Done => Status::Done,
        SessionEnd::Cut => Status::Cut,
        SessionEnd::LineTooLong => Status::LineTooLong,
        SessionEnd::Worn => Status::Worn,
        SessionEnd::ReadFault => Status::ReadFault,
        SessionEnd::WriteFault => Status::WriteFault,
        SessionEnd::Want => Status::Want,
    }
}
