ghost use Rattle.std.specs.Prelude.{◌≡◌, ℕ, Err, IfOk, OnErr, true};
ghost use Rattle.edge_io.specs.Faults.{HasCauseOf};
ghost use Rattle.node_worker.specs.Served.{HasAccepted, IsDone};
ghost use Rattle.node_worker.specs.declared.fault.ServeFault.{ServeFault};

use crate::ready_listener::ReadyListener;
use crate::serve::serve_ready;
use edge_io::Clock;
use node_worker::{Gate, Port, ServeFault, Serving, serve_all};
use std::alloc::Global;
use std::sync::Wait;
use std::thread::Threads;

/// Serves the connections of a listener until as many were accepted as `serving` says, if it says so, or it says that
/// none comes: as they are ready, where it hands out such streams, with no gate, and else each by a thread of its own. It
/// returns once all are over. There is want of memory only before the first is accepted.
pub fn serve_either<R: Threads + Wait + Sync, L: ReadyListener, P: Port, G: Gate, T: Clock>(
    rt: &R,
    alloc: Global,
    listener: &mut L,
    serving: &Serving<'_, P, G, T>,
) -> Result<u64, ServeFault>
where
    L::Incoming: Drop,
    L::Outgoing: Drop,
    ensures accepted { IfOk result (λ n. HasAccepted (L.accepted listener.old)
        (L.accepted listener.new) serving.now.connections n) }
    ensures done { IfOk result (λ n. IsDone serving.now.connections n (L.over listener.new)) }
    ensures fault { HasCauseOf (L.faults listener.old) (L.faults listener.new) result ServeFault.AcceptFault }
    ensures at_fault { OnErr result ((n : ℕ) × HasAccepted (L.accepted listener.old)
        (L.accepted listener.new) serving.now.connections n) }
    ensures at_ready_fault { L.ready listener.old ≡ true
        → OnErr result (L.accepted listener.new ≡ L.accepted listener.old) }
    ensures want { result ≡ Err ServeFault.Want → listener.new ≡ listener.old }
    ensures same_at { L.at listener.new ≡ L.at listener.old }
{
    if listener.is_ready() {
        return serve_ready(rt, alloc, listener, serving);
    }
    serve_all(rt, alloc, listener, serving)
}
