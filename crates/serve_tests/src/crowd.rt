// Connections of a port that are served as they are ready, and clients that come over it.
use crate::memory::same;
use crate::shop::Shop;
use crate::unsteady::Unsteady;
use edge_io::{FixedClock, Listener};
use memc_table::Table;
use node_worker::{OpenGate, ServeFault, Serving};
use ready_worker::{ReadyListener, serve_either};
use std::alloc::{AllocError, Global};
use std::io::{ErrorKind, Read, Write};
use std::net::{Net, OpenStream, Shutdown, SocketAddr, TcpStream};
use std::sync::{Mutex, Wait};
use std::thread::Threads;
use std::{io, thread};
use tcp_edge::TcpEdge;

/// How many clients come, by two workers.
const CLIENTS: u64 = 20;

/// What the first client says in two parts, between which all others are served, and what it is answered.
const BEGINS: &[u8] = b"set a 0 0 1\r";

const GOES_ON: &[u8] = b"\nA\r\nget a b\r\nversion\r\nquit\r\n";

const ANSWERED: &[u8] = b"STORED\r\nVALUE a 0 1\r\nA\r\nEND\r\nVERSION cocytus-1\r\n";

/// Serves the connections of a port as they are ready, over a table of their own.
pub(crate) fn served_as_ready<R, L>(
    rt: R,
    alloc: Global,
    port: &mut L,
    workers: u32,
    connections: u64,
) -> Result<u64, ServeFault>
where
    R: Threads + Wait + Sync + Send + Copy,
    L: ReadyListener,
    L::Incoming: Drop,
    L::Outgoing: Drop,
{
    match Table::new(alloc, 1) {
        Ok(table) => {
            let table = Mutex::new(table);
            let (shop, clock) = (Shop::new(rt, &table), FixedClock::new(0));
            let serving = Serving {
                port: &shop,
                gate: &OpenGate,
                clock: &clock,
                workers,
                connections,
            };
            serve_either(&rt, alloc, port, &serving)
        }
        Err(AllocError) => Err(ServeFault::Want),
    }
}

/// Whether all clients but the first are told the version while it has said half of a request.
fn talk<R: Net>(net: &R, alloc: Global, server: SocketAddr) -> io::Result<Vec<u8>> {
    let mut first = TcpStream::connect(net, server)?;
    first.write_all(BEGINS)?;
    for _ in 1..CLIENTS {
        asks_version(net, server)?;
    }
    first.write_all(GOES_ON)?;
    let mut heard = Vec::new(alloc);
    first.read_to_end(&mut heard)?;
    Ok(heard)
}

fn asks_version<R: Net>(net: &R, server: SocketAddr) -> io::Result<()> {
    let mut stream = TcpStream::connect(net, server)?;
    stream.write_all(b"version\r\n")?;
    stream.read_exact(&mut [0; 19])
}

// Accepting fails twice while the first client's connection is open, and is tried again.
#[test]
fn serves_others_beside_half_a_request(rt: HostRuntime) {
    for failing in [(0, 0), (2, 3)] {
        let mut port = TcpEdge::new(rt);
        same(&rt, port.listen("127.0.0.1:0"), Ok(()));
        let server = port.local_addr().expect(&rt, "an address");
        let mut port = Unsteady::new(port, failing);
        let alloc = rt.alloc();
        let (heard, served) = thread::join(
            &rt,
            move || talk(&rt, alloc, server),
            move || served_as_ready(rt, alloc, &mut port, 2, CLIENTS),
        );
        same(&rt, served, Ok(CLIENTS));
        same(&rt, heard.expect(&rt, "what is heard").as_slice(), ANSWERED);
    }
}

#[test]
fn tells_an_accept_that_failed_first(rt: HostRuntime) {
    let mut port = TcpEdge::new(rt);
    same(&rt, port.listen("127.0.0.1:0"), Ok(()));
    let mut port = Unsteady::new(port, (1, 1));
    let served = served_as_ready(rt, rt.alloc(), &mut port, 2, 0);
    same(&rt, served, Err(ServeFault::AcceptFault));
}

/// A client that asks for the version, says that it goes, and waits until it was let go.
fn comes_and_goes<R: Net>(net: &R, server: SocketAddr) -> io::Result<()> {
    let mut stream = TcpStream::connect(net, server)?;
    stream.write_all(b"version\r\nquit\r\n")?;
    lets_go(&mut stream)
}

/// Waits until the version was told, and the connection let go.
fn lets_go<S: Read>(stream: &mut S) -> io::Result<()> {
    stream.read_exact(&mut [0; 19])?;
    match stream.read(&mut [0])? {
        0 => Ok(()),
        _ => Err(io::Error::from(ErrorKind::InvalidData)),
    }
}

fn come_and_go<R: Net>(net: &R, server: SocketAddr) -> io::Result<()> {
    comes_and_goes(net, server)?;
    comes_and_goes(net, server)
}

// The first client goes while accepting fails, so that nobody is connected at its last failures.
#[test]
fn goes_on_where_accepting_fails_and_nobody_is_connected(rt: HostRuntime) {
    let mut port = TcpEdge::new(rt);
    same(&rt, port.listen("127.0.0.1:0"), Ok(()));
    let server = port.local_addr().expect(&rt, "an address");
    let mut port = Unsteady::new(port, (2, 20));
    let alloc = rt.alloc();
    let (heard, served) = thread::join(
        &rt,
        move || come_and_go(&rt, server),
        move || served_as_ready(rt, alloc, &mut port, 2, 2),
    );
    same(&rt, served, Ok(2));
    heard.expect(&rt, "both are answered");
}

/// How many clients end as they ask, one behind the other.
const ENDING: u64 = 200;

/// A client that asks for the version, says nothing more, and waits until it was let go.
fn asks_and_ends<R: Net>(net: &R, server: SocketAddr) -> io::Result<()> {
    let mut stream = TcpStream::connect(net, server)?;
    stream.write_all(b"version\r\n")?;
    stream.shutdown(Shutdown::Write)?;
    lets_go(&mut stream)
}

fn all_ask_and_end<R: Net>(net: &R, server: SocketAddr) -> io::Result<()> {
    for _ in 0..ENDING {
        asks_and_ends(net, server)?;
    }
    Ok(())
}

// The end comes with what is said, or shortly behind it: either way it is met.
#[test]
fn lets_those_go_that_end_as_they_ask(rt: HostRuntime) {
    let mut port = TcpEdge::new(rt);
    same(&rt, port.listen("127.0.0.1:0"), Ok(()));
    let server = port.local_addr().expect(&rt, "an address");
    let alloc = rt.alloc();
    let (heard, served) = thread::join(
        &rt,
        move || all_ask_and_end(&rt, server),
        move || served_as_ready(rt, alloc, &mut port, 2, ENDING),
    );
    same(&rt, served, Ok(ENDING));
    heard.expect(&rt, "all are answered");
}
