ghost use Rattle.std.specs.Prelude.{◌≡◌, ◌≢◌};
ghost use Rattle.edge_io.specs.Faults.{Rose};
ghost use Rattle.group_server.specs.Service.{tally_with};
ghost use Rattle.scenario_play.specs.Outside.{outside};
ghost use Rattle.group_program.specs.Serving.{IsGroupServed, status_of};

use edge_io::{Clock, Sink, Source};
use group_server::{Notice, ReadyListener, ServiceFault, serve};
use scenario_play::Status;
use scenario_play::tell::tell;
use std::alloc::Global;
use std::sync::Wait;
use std::thread::Threads;

/// Serves a fresh group by the settings that the source gives, and then writes the last line of the status.
pub(crate) fn serve_by_settings<
    R: Threads + Wait + Sync,
    S: Source,
    K: Sink,
    L: ReadyListener,
    N: Notice,
    T: Clock,
>(
    rt: &R,
    alloc: Global,
    source: &mut S,
    sink: &mut K,
    listener: &mut L,
    notice: &N,
    clock: &T,
) -> Status
where
    L::Incoming: Drop,
    L::Outgoing: Drop,
    ensures served { IsGroupServed L.listened (λ l. tally_with (L.at l) (L.accepted l) (L.over l)) listener.old listener.new
        (outside (S.input source.old) (S.faults source.old) (K.held sink.old) (K.faults sink.old))
        (outside (S.input source.new) (S.faults source.new) (K.held sink.new) (K.faults sink.new)) result }
    ensures named { result ≢ Status.BadWords }
    ensures read { result ≡ Status.ReadFault → Rose (S.faults source.old) (S.faults source.new) }
    ensures write { result ≡ Status.WriteFault → Rose (K.faults sink.old) (K.faults sink.new) }
    ensures accept { result ≡ Status.AcceptFault → Rose (L.faults listener.old) (L.faults listener.new) }
{
    let end = serve(rt, alloc, source, sink, listener, notice, clock);
    tell(alloc, sink, status_of(end))
}

/// The status of a group that was served so.
fn status_of(end: Result<u64, ServiceFault>) -> Status
    ensures { result ≡ status_of end }
{
    match end {
        Ok(_) => Status::Done,
        Err(ServiceFault::TooLong) => Status::TooLong,
        Err(ServiceFault::BadConfig(key)) => Status::BadConfig(key),
        Err(ServiceFault::ReadFault) => Status::ReadFault,
        Err(ServiceFault::WriteFault) => Status::WriteFault,
        Err(ServiceFault::AcceptFault) => Status::AcceptFault,
        Err(ServiceFault::Want) => Status::Want,
    }
}
