ghost use Rattle.std.specs.Prelude.{◌≡◌, ◌+◌, ◌≤◌, ◌^◌, ℕ, List, [], length, false, None, IfOk, OnOk};
ghost use Rattle.std.specs.List.{list_any};
ghost use Rattle.memc_proto.specs.Reader.{HasRead};
ghost use Rattle.memc_proto.specs.Reads.{is_quit};
ghost use Rattle.memc_proto.specs.declared.request.Request.{Request};
ghost use Rattle.front_end.specs.Answers.{stand};
ghost use Rattle.front_end.specs.Faults.{HasSinkCause};
ghost use Rattle.front_end.specs.Piece.{IsPieceServed};

use crate::answers::answer_all;
use crate::caller::Caller;
use crate::connection::Connection;
use crate::end::{ConnectionFault, End};
use edge_io::{Clock, Sink};
use std::alloc::Global;

/// Answers the requests that are whole with the next piece, and says how the connection ends, if it does.
pub(crate) fn serve_piece<C: Caller, K: Sink, T: Clock>(
    alloc: Global,
    caller: &mut C,
    sink: &mut K,
    clock: &T,
    connection: &mut Connection,
    piece: &[u8],
) -> Result<Option<End>, ConnectionFault>
    requires idle { connection.old.waiting ≡ [] }
    requires room { connection.old.count + length piece.now ≤ 2 ^ 62 }
    ensures served { (input : List ℕ) (earlier : List Request)
        → HasRead connection.old.kept input earlier → list_any is_quit earlier ≡ false
        → IsPieceServed C.ways (T.moment clock.now)
        (stand caller.old (K.held sink.old)) (stand caller.new (K.held sink.new))
        connection.new.kept input earlier piece.now result }
    ensures idle { OnOk result (connection.new.waiting ≡ []) }
    ensures count { OnOk result (connection.new.count ≡ connection.old.count + length piece.now) }
    ensures cause { HasSinkCause (K.faults sink.old) (K.faults sink.new) result }
{
    connection.take(piece)?;
    answer_all(alloc, caller, sink, clock, connection)?;
    connection.close(sink)
}
