ghost use Rattle.std.specs.Prelude.{◌≡◌, [], OnOk};
ghost use Rattle.front_end.specs.Answers.{stand, ComesOfAll};
ghost use Rattle.front_end.specs.Faults.{HasSinkCause};

use crate::caller::Caller;
use crate::connection::Connection;
use crate::end::ConnectionFault;
use edge_io::{Clock, Sink};
use std::alloc::Global;

/// Answers all requests of a connection that wait, one after the other.
pub(crate) fn answer_all<C: Caller, K: Sink, T: Clock>(
    alloc: Global,
    caller: &mut C,
    sink: &mut K,
    clock: &T,
    connection: &mut Connection,
) -> Result<(), ConnectionFault>
    ensures answer { ComesOfAll C.ways (T.moment clock.now) (stand caller.old (K.held sink.old))
        (stand caller.new (K.held sink.new)) connection.old.waiting result }
    ensures none { OnOk result (connection.new.waiting ≡ []) }
    ensures kept { connection.new.kept ≡ connection.old.kept }
    ensures quits { connection.new.quits ≡ connection.old.quits }
    ensures count { connection.new.count ≡ connection.old.count }
    ensures cause { HasSinkCause (K.faults sink.old) (K.faults sink.new) result }
{
    'requests: while connection.has_waiting() {
        connection.answer_next(alloc, caller, sink, clock)?;
    }
    Ok(())
}
