// What connections say one after another and are answered: in memory, and over a port by a thread each or as they are
// ready.
use crate::crowd::served_as_ready;
use crate::memory::{hears, listener, same};
use crate::workers::served;
use edge_io::Listener;
use node_worker::OpenGate;
use std::alloc::Global;
use std::io::{Read, Write};
use std::net::{Net, OpenStream, Shutdown, SocketAddr, TcpStream};
use std::process::Abort;
use std::{io, thread};
use tcp_edge::TcpEdge;

/// What each connection says before it ends, over one table, and what it is answered.
const ROWS: [(&[u8], &[u8]); 6] = [
    (b"set a 0 0 5\r\nab", b""),
    (b"get a\r\n", b"END\r\n"),
    (
        b"set a 0 0 1\r\nA\r\nget a\r\nquit\r\n",
        b"STORED\r\nVALUE a 0 1\r\nA\r\nEND\r\n",
    ),
    (
        b"get a b a\r\n",
        b"VALUE a 0 1\r\nA\r\nVALUE a 0 1\r\nA\r\nEND\r\n",
    ),
    (b"quit\r\nversion\r\n", b""),
    (b"", b""),
];

#[test]
fn are_answered_in_memory(rt: HostRuntime) {
    let mut said = [b"".as_slice(); ROWS.len()];
    for (at, (says, _)) in ROWS.iter().enumerate() {
        said[at] = says;
    }
    let mut listener = listener(&rt, rt.alloc(), &said, &[]);
    let all = served(rt, rt.alloc(), &mut listener, &OpenGate, 0, 0);
    same(&rt, all, Ok(ROWS.len() as u64));
    for (at, (_, answers)) in ROWS.iter().enumerate() {
        hears(&rt, rt.alloc(), &listener, at as u64 + 1, answers);
    }
}

/// What one connection is told that says this and ends.
fn told<R: Net>(net: &R, alloc: Global, server: SocketAddr, says: &[u8]) -> io::Result<Vec<u8>> {
    let mut stream = TcpStream::connect(net, server)?;
    stream.write_all(says)?;
    stream.shutdown(Shutdown::Write)?;
    let mut heard = Vec::new(alloc);
    stream.read_to_end(&mut heard)?;
    Ok(heard)
}

/// Each row is answered over this port.
fn come<R: Net + Abort>(rt: &R, alloc: Global, server: SocketAddr) {
    for (says, answers) in ROWS {
        let heard = told(rt, alloc, server, says).expect(rt, "what is heard");
        same(rt, heard.as_slice(), answers);
    }
}

#[test]
fn are_answered_over_a_port(rt: HostRuntime) {
    for ready in [false, true] {
        let mut port = TcpEdge::new(rt);
        same(&rt, port.listen("127.0.0.1:0"), Ok(()));
        let server = port.local_addr().expect(&rt, "an address");
        let (alloc, count) = (rt.alloc(), ROWS.len() as u64);
        let ((), all) = thread::join(
            &rt,
            move || come(&rt, alloc, server),
            move || {
                if ready {
                    served_as_ready(rt, alloc, &mut port, 2, count)
                } else {
                    served(rt, alloc, &mut port, &OpenGate, 2, count)
                }
            },
        );
        same(&rt, all, Ok(count));
    }
}
