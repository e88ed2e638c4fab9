ghost use Rattle.std.specs.Prelude.{◌≡◌, ℕ, Err, IfErr, IfOk, OnErr, OnOk, false, true};
ghost use Rattle.edge_io.specs.Faults.{HasCause, HasCauseOf};
ghost use Rattle.node_worker.specs.Served.{HasAccepted, IsDone};
ghost use Rattle.node_worker.specs.declared.fault.ServeFault.{ServeFault};

use crate::acceptor::{Acceptor, refuse};
use crate::inbox::Inbox;
use crate::poll_readiness::PollReadiness;
use crate::ready_listener::ReadyListener;
use crate::station::Station;
use crate::worker::Worker;
use edge_io::{Clock, Failed};
use front_end::{AtOnce, Caller, Overlap};
use mio::Waker;
use mio::net::TcpStream;
use node_worker::{Port, ServeFault, Serving};
use std::alloc::Global;
use std::sync::Wait;
use std::thread::{Parker, Scope, Threads};
use std::time::Duration;
use std::{io, thread};

/// How long an accept that failed is put off, in milliseconds.
const PUT_OFF: u64 = 10;

/// A port whose connections were accepted, and how that ended.
struct Accepted<'a, L> {
    listener: &'a mut L,
    end: Result<u64, ServeFault>,
}

/// Serves the connections of a port until as many were accepted as `serving` says, if it says so.
/// It returns once all are over. Once a connection was accepted an accept that fails is tried again, so that no fault of
/// the port ends what is served. There is want of memory only before the first is accepted.
pub fn serve_ready<R: Threads + Wait + Sync, L: ReadyListener, P: Port, G, T: Clock>(
    rt: &R,
    alloc: Global,
    listener: &mut L,
    serving: &Serving<'_, P, G, T>,
) -> Result<u64, ServeFault>
    requires ready { L.ready listener.old ≡ true }
    ensures accepted { IfOk result (λ n. HasAccepted (L.accepted listener.old)
        (L.accepted listener.new) serving.now.connections n) }
    ensures done { IfOk result (λ n. IsDone serving.now.connections n (L.over listener.new)) }
    ensures fault { HasCauseOf (L.faults listener.old) (L.faults listener.new) result ServeFault.AcceptFault }
    ensures at_fault { OnErr result (L.accepted listener.new ≡ L.accepted listener.old) }
    ensures want { result ≡ Err ServeFault.Want → listener.new ≡ listener.old }
    ensures same_at { L.at listener.new ≡ L.at listener.old }
{
    let Ok(crew) = crew_of(alloc, listener, serving.workers) else {
        return Err(ServeFault::Want);
    };
    let Ok(acceptor) = Acceptor::new(alloc, &crew) else {
        return Err(ServeFault::Want);
    };
    let Accepted { listener: _, end } = serve_in_scope::<R, L, P::Lent, P, T>(
        rt,
        listener,
        &acceptor,
        crew,
        serving.port,
        serving.clock,
        serving.connections,
    );
    end
}

/// Stations for so many workers, each with a poll of its own.
fn crew_of<L: ReadyListener>(
    alloc: Global,
    listener: &L,
    workers: u32,
) -> io::Result<Vec<Station<PollReadiness>>> {
    let mut crew = Vec::with_capacity(alloc, workers as usize)?;
    'workers: for _ in 0..workers {
        let readiness = PollReadiness::new(alloc, listener.poll()?)?;
        crew.push(Station::new(alloc, readiness)?)?;
    }
    Ok(crew)
}

/// Accepts in a scope of threads, and gives the port back once all of them ended.
fn serve_in_scope<
    'a,
    R: Threads + Wait + Sync,
    L: ReadyListener,
    Q: Caller + Send + Drop,
    P: Port<Lent = Q>,
    T: Clock,
>(
    rt: &R,
    listener: &'a mut L,
    acceptor: &Acceptor,
    crew: Vec<Station<PollReadiness>>,
    port: &P,
    clock: &T,
    connections: u64,
) -> Accepted<'a, L>
    requires ready { L.ready listener.old ≡ true }
    ensures same { result.listener.ghost_name ≡ listener.entry.ghost_name }
    ensures accepted { IfOk result.end (λ n. HasAccepted (L.accepted listener.old)
        (L.accepted result.listener.now) connections n) }
    ensures done { IfOk result.end (λ n. IsDone connections n (L.over result.listener.now)) }
    ensures fault { HasCauseOf (L.faults listener.old)
        (L.faults result.listener.now) result.end ServeFault.AcceptFault }
    ensures at_fault { OnErr result.end (L.accepted result.listener.now ≡ L.accepted listener.old) }
    ensures want { result.end ≡ Err ServeFault.Want → result.listener.now ≡ listener.old }
    ensures same_at { L.at result.listener.now ≡ L.at listener.old }
{
    thread::scope(
        thread::scope_env(),
        rt,
        move |scope| -> Accepted<'_, L>
            requires { L.ready listener.now ≡ true }
            ensures { (result.listener.ghost_name ≡ listener.entry.ghost_name)
                × IfOk result.end (λ n. HasAccepted (L.accepted listener.entry.now) (L.accepted result.listener.now) connections n)
                × IfOk result.end (λ n. IsDone connections n (L.over result.listener.now))
                × HasCauseOf (L.faults listener.entry.now) (L.faults result.listener.now) result.end ServeFault.AcceptFault
                × OnErr result.end (L.accepted result.listener.now ≡ L.accepted listener.entry.now)
                × (result.end ≡ Err ServeFault.Want → result.listener.now ≡ listener.entry.now)
                × (L.at result.listener.now ≡ L.at listener.entry.now) }
        {
            start_all::<_, R, Q, P, T>(rt, scope, acceptor, crew, port, clock);
            let end = accept_by(rt, listener, acceptor, connections);
            acceptor.end();
            Accepted { listener, end }
        },
    )
}

/// Accepts connections, if a worker runs.
fn accept_by<R: Wait, L: ReadyListener>(
    rt: &R,
    listener: &mut L,
    acceptor: &Acceptor,
    connections: u64,
) -> Result<u64, ServeFault>
    requires ready { L.ready listener.old ≡ true }
    ensures accepted { IfOk result (λ n. HasAccepted (L.accepted listener.old)
        (L.accepted listener.new) connections n) }
    ensures done { IfOk result (λ n. IsDone connections n (L.over listener.new)) }
    ensures fault { HasCauseOf (L.faults listener.old) (L.faults listener.new) result ServeFault.AcceptFault }
    ensures at_fault { OnErr result (L.accepted listener.new ≡ L.accepted listener.old) }
    ensures want { result ≡ Err ServeFault.Want → listener.new ≡ listener.old }
    ensures same_at { L.at listener.new ≡ L.at listener.old }
{
    if !acceptor.has_worker() {
        return Err(ServeFault::Want);
    }
    accept_all(rt, listener, acceptor, connections).map_err(ServeFault::from)
}

/// Has each worker run in a thread of its own, with a caller of its own.
fn start_all<
    's,
    E,
    R: Threads + Wait + Sync,
    Q: Caller + Send + Drop + 's,
    P: Port<Lent = Q>,
    T: Clock,
>(
    rt: &'s R,
    scope: &'s Scope<'s, E>,
    acceptor: &'s Acceptor,
    crew: Vec<Station<PollReadiness>>,
    port: &'s P,
    clock: &'s T,
) {
    let mut crew = crew;
    'inboxes: for inbox in acceptor.inboxes().iter().rev() {
        let Some(station) = crew.pop() else {
            return;
        };
        let gateway = AtOnce::new(borrow::<R, Q, P>(rt, port));
        let worker = Worker::new(station, gateway, clock, Overlap::Never);
        let job = move || work::<R, Q, P, T>(rt, inbox, worker, port);
        if scope.spawn(job).is_ok() {
            inbox.start();
        }
    }
}

/// Serves the connections of a inbox, and gives the caller back.
fn work<R: Wait, Q: Caller + Drop, P: Port<Lent = Q>, T: Clock>(
    rt: &R,
    inbox: &Inbox<TcpStream, Waker>,
    worker: Worker<'_, PollReadiness, AtOnce<Q>, T>,
    port: &P,
) {
    let mut worker = worker;
    worker.run(rt, inbox);
    port.give_back(worker.into_gateway().into_caller());
}

/// Accepts connections, and hands each to a worker.
fn accept_all<R: Wait, L: ReadyListener>(
    rt: &R,
    listener: &mut L,
    acceptor: &Acceptor,
    connections: u64,
) -> Result<u64, Failed>
    requires ready { L.ready listener.old ≡ true }
    ensures accepted { IfOk result (λ n. HasAccepted (L.accepted listener.old)
        (L.accepted listener.new) connections n) }
    ensures done { IfOk result (λ n. IsDone connections n (L.over listener.new)) }
    ensures fault { HasCause (L.faults listener.old) (L.faults listener.new) result }
    ensures at_fault { OnErr result (L.accepted listener.new ≡ L.accepted listener.old) }
    ensures same_at { L.at listener.new ≡ L.at listener.old }
{
    let pause = Parker::new();
    let mut accepted = 0;
    'connections: for _ in rt.forever() {
        if connections != 0 && accepted == connections {
            return Ok(accepted);
        }
        match listener.accept_stream() {
            Ok(stream) => {
                accepted += 1;
                listener.note_open(acceptor.open());
                if listener.is_full() {
                    refuse(stream);
                } else {
                    acceptor.receive(rt, stream, listener.most_open());
                }
            }
            Err(Failed) if accepted == 0 => return Err(Failed),
            Err(Failed) => pause.park_timeout(rt, Duration::from_millis(PUT_OFF)),
        }
    }
    unreachable!()
}

/// A caller for a worker, which is asked for until there is one.
fn borrow<R: Wait, Q: Caller, P: Port<Lent = Q>>(rt: &R, port: &P) -> Q {
    for _ in rt.forever() {
        if let Some(caller) = port.lend() {
            return caller;
        }
        thread::yield_now();
    }
    unreachable!()
}
