ghost use Rattle.std.specs.Prelude.{◌≡◌, ℕ, Err, IfOk, OnErr};
ghost use Rattle.edge_io.specs.Faults.{HasCauseOf};
ghost use Rattle.group_server.specs.Serving.{IsGroupOf};
ghost use Rattle.node_worker.specs.Served.{HasAccepted, IsDone};
ghost use Rattle.node_worker.specs.declared.fault.ServeFault.{ServeFault};

use crate::bell::Bell;
use crate::deliverer::Deliverer;
use crate::losses::Losses;
use crate::notice::Notice;
use crate::pool::CallerPool;
use crate::terms::Terms;
use edge_io::Clock;
use group_stage::{Seats, Stage};
use node_worker::{Gate, ServeFault, Serving};
use ready_worker::{ReadyListener, serve_either};
use std::alloc::Global;
use std::sync::Wait;
use std::thread;
use std::thread::Threads;

/// Serves the connections of a listener over a group by its settings: until as many were accepted as they say, if they say
/// so, or the listener says that none comes. It returns once all are served. There is want of memory only before the first
/// is accepted.
pub fn serve_group<R: Threads + Wait + Sync, L: ReadyListener, G: Gate, N: Notice, T: Clock>(
    rt: &R,
    alloc: Global,
    listener: &mut L,
    stage: &Stage,
    seats: Seats,
    terms: &Terms<'_, G, N, T>,
) -> Result<u64, ServeFault>
where
    L::Incoming: Drop,
    L::Outgoing: Drop,
    requires { IsGroupOf terms.now.settings.now stage.now seats.seats }
    ensures accepted { IfOk result (λ n. HasAccepted (L.accepted listener.old)
        (L.accepted listener.new) terms.now.settings.now.connections n) }
    ensures done { IfOk result (λ n. IsDone terms.now.settings.now.connections n (L.over listener.new)) }
    ensures fault { HasCauseOf (L.faults listener.old) (L.faults listener.new) result ServeFault.AcceptFault }
    ensures at_fault { OnErr result ((n : ℕ) × HasAccepted (L.accepted listener.old)
        (L.accepted listener.new) terms.now.settings.now.connections n) }
    ensures want { result ≡ Err ServeFault.Want → listener.new ≡ listener.old }
    ensures same_at { L.at listener.new ≡ L.at listener.old }
{
    let mut rest = seats;
    let Some(own) = rest.take() else {
        unreachable!()
    };
    let mut deliverer = Deliverer::new(stage, own);
    let losses = Losses::new(stage.shape().k());
    match CallerPool::new(rt, alloc, stage, rest, terms.settings.control, &losses) {
        Ok(pool) => serve_beside(rt, alloc, listener, &mut deliverer, &pool, terms),
        Err(_) => Err(ServeFault::Want),
    }
}

/// Serves the connections over the callers of a pool, while a thread of its own delivers.
fn serve_beside<R: Threads + Wait + Sync, L: ReadyListener, G: Gate, N: Notice, T: Clock>(
    rt: &R,
    alloc: Global,
    listener: &mut L,
    deliverer: &mut Deliverer<'_>,
    pool: &CallerPool<'_, '_, R>,
    terms: &Terms<'_, G, N, T>,
) -> Result<u64, ServeFault>
where
    L::Incoming: Drop,
    L::Outgoing: Drop,
    requires { pool.now.control ≡ terms.now.settings.now.control }
    ensures accepted { IfOk result (λ n. HasAccepted (L.accepted listener.old)
        (L.accepted listener.new) terms.now.settings.now.connections n) }
    ensures done { IfOk result (λ n. IsDone terms.now.settings.now.connections n (L.over listener.new)) }
    ensures fault { HasCauseOf (L.faults listener.old) (L.faults listener.new) result ServeFault.AcceptFault }
    ensures at_fault { OnErr result ((n : ℕ) × HasAccepted (L.accepted listener.old)
        (L.accepted listener.new) terms.now.settings.now.connections n) }
    ensures want { result ≡ Err ServeFault.Want → listener.new ≡ listener.old }
    ensures same_at { L.at listener.new ≡ L.at listener.old }
{
    let bell = Bell::new();
    // Where no thread can be made the first of the two runs last, and the bell has rung.
    let ((), end) = thread::join_mut(
        rt,
        &mut || deliverer.run(rt, &bell, pool.losses(), terms.notice),
        &mut || { serve_and_ring(rt, alloc, listener, &bell, pool, terms) },
    );
    end
}

/// Serves the connections over the callers of a pool, and rings the bell behind the last.
fn serve_and_ring<R: Threads + Wait + Sync, L: ReadyListener, G: Gate, N, T: Clock>(
    rt: &R,
    alloc: Global,
    listener: &mut L,
    bell: &Bell,
    pool: &CallerPool<'_, '_, R>,
    terms: &Terms<'_, G, N, T>,
) -> Result<u64, ServeFault>
where
    L::Incoming: Drop,
    L::Outgoing: Drop,
    ensures accepted { IfOk result (λ n. HasAccepted (L.accepted listener.old)
        (L.accepted listener.new) terms.now.settings.now.connections n) }
    ensures done { IfOk result (λ n. IsDone terms.now.settings.now.connections n (L.over listener.new)) }
    ensures fault { HasCauseOf (L.faults listener.old) (L.faults listener.new) result ServeFault.AcceptFault }
    ensures at_fault { OnErr result ((n : ℕ) × HasAccepted (L.accepted listener.old)
        (L.accepted listener.new) terms.now.settings.now.connections n) }
    ensures want { result ≡ Err ServeFault.Want → listener.new ≡ listener.old }
    ensures same_at { L.at listener.new ≡ L.at listener.old }
{
    let serving = Serving {
        port: pool,
        gate: terms.gate,
        clock: terms.clock,
        workers: terms.settings.workers,
        connections: terms.settings.connections,
    };
    let end = serve_either(rt, alloc, listener, &serving);
    bell.ring();
    end
}
