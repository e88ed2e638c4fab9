ghost use Rattle.std.specs.Prelude.{◌≡◌, ℕ, IfErr, IfOk, OnErr};
ghost use Rattle.edge_io.specs.Faults.{HasCause, HasCauseOf};
ghost use Rattle.node_worker.specs.Served.{HasAccepted, IsDone};
ghost use Rattle.node_worker.specs.declared.fault.ServeFault.{ServeFault};

use crate::fault::ServeFault;
use crate::gate::Gate;
use crate::pool::Pool;
use crate::port::Port;
use crate::serving::Serving;
use edge_io::{Clock, Failed, Listener, Sink, Source};
use front_end::Caller;
use std::alloc::Global;
use std::sync::Wait;
use std::thread;
use std::thread::{Scope, Threads};

/// A listener whose connections were accepted, and how that ended.
struct Accepted<'a, L> {
    listener: &'a mut L,
    end: Result<u64, Failed>,
}

/// Serves the connections of a listener until as many were accepted as `serving` says, if it says so, or the
/// listener says that none comes. While fewer than its workers are being served a thread of its own serves the next;
/// else, or where no thread can be made, the accepting thread does. It returns once all are served.
///
/// `AcceptFault`: the listener counted a fault; those that were accepted before are served.
pub fn serve_all<R: Threads + Wait + Sync, L: Listener, P: Port, G: Gate, T: Clock>(
    rt: &R,
    alloc: Global,
    listener: &mut L,
    serving: &Serving<'_, P, G, T>,
) -> Result<u64, ServeFault>
where
    L::Incoming: Drop,
    L::Outgoing: Drop,
    ensures accepted { IfOk result (λ n. HasAccepted (L.accepted listener.old)
        (L.accepted listener.new) serving.now.connections n) }
    ensures done { IfOk result (λ n. IsDone serving.now.connections n (L.over listener.new)) }
    ensures fault { HasCauseOf (L.faults listener.old) (L.faults listener.new) result ServeFault.AcceptFault }
    ensures only { IfErr result (λ fault. fault ≡ ServeFault.AcceptFault) }
    ensures at_fault { OnErr result ((n : ℕ) × HasAccepted (L.accepted listener.old)
        (L.accepted listener.new) serving.now.connections n) }
    ensures same_at { L.at listener.new ≡ L.at listener.old }
{
    let pool = Pool::new(alloc, serving);
    let Accepted { listener: _, end } = serve_in_scope::<
        R,
        L::Incoming,
        L::Outgoing,
        P::Lent,
        L,
        P,
        G,
        T,
    >(rt, listener, &pool, serving.connections);
    end.map_err(ServeFault::from)
}

/// Accepts in a scope of threads, and gives the listener back once all of them ended.
fn serve_in_scope<
    'a,
    R: Threads + Wait + Sync,
    I: Source + Send + Drop,
    O: Sink + Send + Drop,
    Q: Caller + Send + Drop,
    L: Listener<Incoming = I, Outgoing = O>,
    P: Port<Lent = Q>,
    G: Gate,
    T: Clock,
>(rt: &R, listener: &'a mut L, pool: &Pool<'_, P, G, T>, connections: u64) -> Accepted<'a, L>
    ensures same { result.listener.ghost_name ≡ listener.entry.ghost_name }
    ensures accepted { IfOk result.end (λ n. HasAccepted (L.accepted listener.old)
        (L.accepted result.listener.now) connections n) }
    ensures done { IfOk result.end (λ n. IsDone connections n (L.over result.listener.now)) }
    ensures fault { HasCause (L.faults listener.old) (L.faults result.listener.now) result.end }
    ensures at_fault { OnErr result.end ((n : ℕ) × HasAccepted (L.accepted listener.old)
        (L.accepted result.listener.now) connections n) }
    ensures same_at { L.at result.listener.now ≡ L.at listener.old }
{
    thread::scope(
        thread::scope_env(),
        rt,
        move |scope| -> Accepted<'_, L>
            ensures { (result.listener.ghost_name ≡ listener.entry.ghost_name)
                × IfOk result.end (λ n. HasAccepted (L.accepted listener.entry.now) (L.accepted result.listener.now) connections n)
                × IfOk result.end (λ n. IsDone connections n (L.over result.listener.now))
                × HasCause (L.faults listener.entry.now) (L.faults result.listener.now) result.end
                × OnErr result.end ((n : ℕ) × HasAccepted (L.accepted listener.entry.now) (L.accepted result.listener.now) connections n)
                × (L.at result.listener.now ≡ L.at listener.entry.now) }
        {
            let end = accept_all::<_, R, I, O, Q, L, P, G, T>(
                rt,
                scope,
                listener,
                pool,
                connections,
            );
            Accepted { listener, end }
        },
    )
}

/// Accepts connections, and sees that each is served.
fn accept_all<
    's,
    E,
    R: Threads + Wait + Sync,
    I: Source + Send + Drop + 's,
    O: Sink + Send + Drop + 's,
    Q: Caller + Send + Drop + 's,
    L: Listener<Incoming = I, Outgoing = O>,
    P: Port<Lent = Q>,
    G: Gate,
    T: Clock,
>(
    rt: &R,
    scope: &'s Scope<'s, E>,
    listener: &mut L,
    pool: &'s Pool<'s, P, G, T>,
    connections: u64,
) -> Result<u64, Failed>
    ensures accepted { IfOk result (λ n. HasAccepted (L.accepted listener.old)
        (L.accepted listener.new) connections n) }
    ensures done { IfOk result (λ n. IsDone connections n (L.over listener.new)) }
    ensures fault { HasCause (L.faults listener.old) (L.faults listener.new) result }
    ensures at_fault { OnErr result ((n : ℕ) × HasAccepted (L.accepted listener.old)
        (L.accepted listener.new) connections n) }
    ensures same_at { L.at listener.new ≡ L.at listener.old }
{
    let mut accepted = 0;
    'connections: for _ in rt.forever() {
        if connections != 0 && accepted == connections {
            return Ok(accepted);
        }
        match listener.accept()? {
            Some((source, sink)) => {
                accepted += 1;
                start::<E, R, I, O, Q, P, G, T>(rt, scope, pool, accepted, source, sink);
            }
            None => return Ok(accepted),
        }
    }
    unreachable!()
}

/// Has a connection served: by a thread of its own while a worker is free, and else by this one.
fn start<
    's,
    E,
    R: Threads + Wait + Sync,
    I: Source + Send + Drop + 's,
    O: Sink + Send + Drop + 's,
    Q: Caller + Send + Drop + 's,
    P: Port<Lent = Q>,
    G: Gate,
    T: Clock,
>(rt: &R, scope: &'s Scope<'s, E>, pool: &'s Pool<'s, P, G, T>, number: u64, source: I, sink: O) {
    let has_worker = pool.has_free_worker();
    let caller = borrow::<R, Q, P, G, T>(rt, pool);
    let job = move || pool.serve(number, source, sink, caller);
    if !has_worker {
        return job();
    }
    if let Err(refused) = scope.spawn(job) {
        (refused.value)();
    }
}

/// A caller for the next connection, which is asked for until there is one.
fn borrow<R: Wait, Q: Caller + Drop, P: Port<Lent = Q>, G: Gate, T: Clock>(
    rt: &R,
    pool: &Pool<'_, P, G, T>,
) -> Q {
    for _ in rt.forever() {
        if let Some(caller) = pool.lend() {
            return caller;
        }
        thread::yield_now();
    }
    unreachable!()
}
