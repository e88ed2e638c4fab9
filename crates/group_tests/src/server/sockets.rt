// A coded group behind a port of this machine, to which more clients come than may be connected at a time, one after another.
use crate::program::clocks::Ticking;
use crate::server::narrow::Narrow;
use crate::server::stages::settings_of;
use edge_io::Listener;
use group_server::{Silent, Terms, serve_group};
use group_stage::Stage;
use group_types::Shape;
use node_worker::{OpenGate, ServeFault};
use ready_worker::ReadyListener;
use std::alloc::{AllocError, Global};
use std::io::{Read, Write};
use std::net::{Net, SocketAddr, TcpStream};
use std::sync::Wait;
use std::sync::atomic::AtomicU64;
use std::test::Fail;
use std::thread::Threads;
use std::{io, thread};
use tcp_edge::TcpEdge;

/// How many clients come, and how many of them may be connected at a time.
const CLIENTS: u64 = 9;

const MOST_OPEN: u64 = 5;

/// How often the first client reads what it stored, in one piece with all that it says.
const READS: u64 = 98;

const VALUE: &[u8] = b"VALUE a 0 1\r\nA\r\n";

/// What the clients behind the one that broke off say, and what each of them is told.
const SAID: [(&str, &str); 3] = [
    ("get b\r\nset e 0 1 1\r\nE\r\nquit\r\n", "END\r\nSTORED\r\n"),
    ("get e\r\nquit\r\n", "END\r\n"),
    (
        "cocytus_fail d0 0\r\ncocytus_fail d0 0\r\nquit\r\n",
        "OK\r\nALREADY_DEAD\r\n",
    ),
];

/// Serves a coded group whose clients may let processes fail, until all clients have come and gone.
fn serve_coded<R: Threads + Wait + Sync, L: ReadyListener>(
    rt: &R,
    alloc: Global,
    port: &mut L,
    shape: Shape,
    clock: &Ticking,
) -> Result<u64, ServeFault>
where
    L::Incoming: Drop,
    L::Outgoing: Drop,
{
    let Ok(mut settings) = settings_of(alloc, shape, 2, CLIENTS) else {
        return Err(ServeFault::Want);
    };
    settings.control = true;
    let Ok((stage, seats)) = Stage::new(alloc, shape, 4) else {
        return Err(ServeFault::Want);
    };
    let terms = Terms {
        settings: &settings,
        gate: &OpenGate,
        notice: &Silent,
        clock,
    };
    serve_group(rt, alloc, port, &stage, seats, &terms)
}

/// What a client says that stores a value and reads it often.
fn stores_and_reads(alloc: Global) -> Result<Vec<u8>, AllocError> {
    let mut said = Vec::from_slice(alloc, b"set a 0 0 1\r\nA\r\n")?;
    for _ in 0..READS {
        said.extend_from_slice(b"get a\r\n")?;
    }
    said.extend_from_slice(b"quit\r\n")?;
    Ok(said)
}

/// What all clients hear, one behind the other.
fn wanted(alloc: Global) -> Result<Vec<u8>, AllocError> {
    let mut told = Vec::from_slice(alloc, b"STORED\r\n")?;
    for _ in 0..READS {
        hears_value(&mut told)?;
    }
    for (_, answer) in SAID {
        told.extend_from_slice(answer.as_bytes())?;
    }
    for _ in 5..CLIENTS {
        hears_value(&mut told)?;
    }
    Ok(told)
}

fn hears_value(told: &mut Vec<u8>) -> Result<(), AllocError> {
    told.extend_from_slice(VALUE)?;
    told.extend_from_slice(b"END\r\n")
}

/// A client that says this, and hears all that it is told.
fn says<R: Net>(net: &R, server: SocketAddr, text: &[u8], heard: &mut Vec<u8>) -> io::Result<()> {
    let mut stream = TcpStream::connect(net, server)?;
    stream.write_all(text)?;
    stream.read_to_end(heard)?;
    Ok(())
}

/// A client that goes inside a data block and leaves what it is told unread, which resets its connection.
fn breaks_off<R: Net>(net: &R, server: SocketAddr) -> io::Result<()> {
    let mut stream = TcpStream::connect(net, server)?;
    stream.write_all(b"version\r\nset b 0 0 10\r\nAB")?;
    stream.read_exact(&mut [0; 1])
}

/// What all clients hear.
fn talk<R: Net>(net: &R, alloc: Global, server: SocketAddr) -> io::Result<Vec<u8>> {
    let mut heard = Vec::new(alloc);
    says(net, server, &stores_and_reads(alloc)?, &mut heard)?;
    breaks_off(net, server)?;
    for (text, _) in SAID {
        says(net, server, text.as_bytes(), &mut heard)?;
    }
    for _ in 5..CLIENTS {
        says(net, server, b"get a\r\nquit\r\n", &mut heard)?;
    }
    Ok(heard)
}

// Its item of one second has ended when the next client asks for it, and a value of a process that was lost is read on.
#[test]
fn serves_a_coded_group_over_a_port(rt: HostRuntime) -> Result<(), Fail> {
    let alloc = rt.alloc();
    let shape = Shape::new(4, 2, 1024, 1024)?;
    let mut port = TcpEdge::new(rt);
    assert_eq!(rt; port.listen("127.0.0.1:0"), Ok(()));
    let server = port.local_addr()?;
    let mut port = Narrow {
        port,
        most_open: MOST_OPEN,
    };
    let clock = Ticking(AtomicU64::new(100));
    let (heard, served) = thread::join(
        &rt,
        move || talk(&rt, alloc, server),
        move || serve_coded(&rt, alloc, &mut port, shape, &clock),
    );
    assert_eq!(rt; served, Ok(CLIENTS));
    assert_eq!(rt; heard?.as_slice(), wanted(alloc)?.as_slice());
    Ok(())
}
