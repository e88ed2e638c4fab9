ghost use Rattle.std.specs.Prelude.{◌≡◌, [], length};
ghost use Rattle.edge_io.specs.Faults.{HasCauseOf};
ghost use Rattle.memc_proto.specs.Reader.{HasRead};
ghost use Rattle.front_end.specs.Answers.{stand};
ghost use Rattle.front_end.specs.Connection.{HasServed};

use crate::caller::Caller;
use crate::connection::{Connection, PIECE};
use crate::end::{ConnectionFault, End};
use crate::piece::serve_piece;
use edge_io::{Clock, Sink, Source};
use std::alloc::Global;

/// Serves one connection to its end: `Quit`, `Ended` (the input ended between two requests), `Cut` (inside one),
/// `LineTooLong`, or `Worn` (2^62 bytes).
///
/// `ReadFault`, `WriteFault`: the source or the sink counted a fault. `Want`: there was no memory. What was answered until
/// then is told by the contract.
pub fn serve_connection<C: Caller, S: Source, K: Sink, T: Clock>(
    alloc: Global,
    caller: &mut C,
    source: &mut S,
    sink: &mut K,
    clock: &T,
) -> Result<End, ConnectionFault>
    ensures served { HasServed C.ways (T.moment clock.now) (S.input source.old) (S.input source.new)
        (stand caller.old (K.held sink.old)) (stand caller.new (K.held sink.new)) result }
    ensures read { HasCauseOf (S.faults source.old) (S.faults source.new) result ConnectionFault.ReadFault }
    ensures write { HasCauseOf (K.faults sink.old) (K.faults sink.new) result ConnectionFault.WriteFault }
{
    let mut connection = Connection::new(alloc);
    let mut room = vec![in alloc; 0; PIECE]?;
    serve_pieces(
        alloc,
        caller,
        source,
        sink,
        clock,
        &mut connection,
        &mut room,
    )
}

/// Reads piece by piece into `room`, and answers each before the next is read.
fn serve_pieces<C: Caller, S: Source, K: Sink, T: Clock>(
    alloc: Global,
    caller: &mut C,
    source: &mut S,
    sink: &mut K,
    clock: &T,
    connection: &mut Connection,
    room: &mut [u8],
) -> Result<End, ConnectionFault>
    requires room { length room.old ≡ PIECE }
    requires fresh { HasRead connection.old.kept [] [] }
    requires idle { connection.old.waiting ≡ [] }
    requires unread { connection.old.count ≡ 0 }
    ensures served { HasServed C.ways (T.moment clock.now) (S.input source.old) (S.input source.new)
        (stand caller.old (K.held sink.old)) (stand caller.new (K.held sink.new)) result }
    ensures read { HasCauseOf (S.faults source.old) (S.faults source.new) result ConnectionFault.ReadFault }
    ensures write { HasCauseOf (K.faults sink.old) (K.faults sink.new) result ConnectionFault.WriteFault }
{
    'pieces: while connection.most() > 0 {
        let into = &mut room[..connection.most()];
        let n = source.read(into)?;
        if n == 0 {
            return Ok(connection.end());
        }
        if let Some(end) = serve_piece(alloc, caller, sink, clock, connection, &into[..n])? {
            return Ok(end);
        }
    }
    Ok(End::Worn)
}
