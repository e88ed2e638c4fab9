ghost use Rattle.std.specs.Prelude.{◌≡◌, ◌≤◌};
ghost use Rattle.edge_io.specs.Faults.{HasCauseOf, Rose};
ghost use Rattle.scenario_session.specs.Session.{HasEndedSession, IsSessionServed};

use crate::end::{SessionEnd, end_of};
use caller_table::{World, WorldCaller};
use edge_io::{Clock, Sink, Source};
use front_end::{ConnectionFault, End, serve_connection};
use group_types::Shape;
use std::alloc::Global;

/// Makes a group, and serves one connection over it.
pub fn session<S: Source, K: Sink, T: Clock>(
    alloc: Global,
    shape: Shape,
    source: &mut S,
    sink: &mut K,
    clock: &T,
) -> SessionEnd
    ensures ended { HasEndedSession shape (T.moment clock.now) (S.input source.old) (S.input source.new)
        (K.held sink.old) (K.held sink.new) result }
    ensures read { result ≡ SessionEnd.ReadFault → Rose (S.faults source.old) (S.faults source.new) }
    ensures write { result ≡ SessionEnd.WriteFault → Rose (K.faults sink.old) (K.faults sink.new) }
    ensures later { K.faults sink.old ≤ K.faults sink.new }
{
    end_of(serve_fresh(alloc, shape, source, sink, clock))
}

/// Serves the connection, of which the group is left behind.
fn serve_fresh<S: Source, K: Sink, T: Clock>(
    alloc: Global,
    shape: Shape,
    source: &mut S,
    sink: &mut K,
    clock: &T,
) -> Result<End, ConnectionFault>
    ensures served { IsSessionServed shape (T.moment clock.now) (S.input source.old) (S.input source.new) (K.held sink.old)
        (K.held sink.new) result }
    ensures read { HasCauseOf (S.faults source.old) (S.faults source.new) result ConnectionFault.ReadFault }
    ensures write { HasCauseOf (K.faults sink.old) (K.faults sink.new) result ConnectionFault.WriteFault }
{
    let mut caller = WorldCaller::new(World::new(alloc, shape)?, 0, true);
    serve_connection(alloc, &mut caller, source, sink, clock)
}
