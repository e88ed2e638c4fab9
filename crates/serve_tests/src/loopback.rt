// A port of this machine.
use crate::memory::same;
use edge_io::{Failed, Listener};
use std::alloc::Global;
use std::io;
use std::io::ErrorKind;
use std::net::{Net, SocketAddr};
use std::process::Abort;
use tcp_edge::TcpEdge;

#[test]
fn keeps_its_last_error(rt: HostRuntime) {
    let mut port = TcpEdge::new(rt);
    same(&rt, last(&port), None);
    assert!(rt; matches!(port.accept(), Err(Failed)));
    same(&rt, last(&port), Some(ErrorKind::NotConnected));
    same(
        &rt,
        (port.listen("nowhere"), port.listen("127.0.0.1:0")),
        (Err(Failed), Ok(())),
    );
    let taken = port.local_addr().expect(&rt, "an address");
    finds_taken(rt, rt.alloc(), taken);
}

fn last<R: Net>(port: &TcpEdge<R>) -> Option<ErrorKind> {
    port.last_error().map(io::Error::kind)
}

// Another port at this address is refused.
fn finds_taken<R: Net + Copy + Abort>(rt: R, alloc: Global, taken: SocketAddr) {
    let address = format!(in alloc; "{taken}").expect(&rt, "an address");
    let mut port = TcpEdge::new(rt);
    same(&rt, port.listen(&address), Err(Failed));
    same(&rt, last(&port), Some(ErrorKind::AddrInUse));
}
