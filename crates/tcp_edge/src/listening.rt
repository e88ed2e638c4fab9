ghost use Rattle.std.specs.Prelude.{◌≡◌, IfOk};

use edge_io::Past;
use std::io;
use std::net::{Net, TcpListener, ToSocketAddrs};

/// A port that was bound, and the address that was asked for.
#[derive(Drop)]
pub(crate) struct Bound {
    pub(crate) port: TcpListener,
    at: Past,
}

/// Listens at the first address of a text that can be bound, with the longest backlog that the system allows:
/// the last error where none can. `accept` on it waits.
pub(crate) fn listen_at<N: Net>(net: &N, address: &str) -> io::Result<Bound>
    ensures { IfOk result (λ b. b.at.bytes ≡ address.now) }
{
    let port = bind(net, address)?;
    port.set_nonblocking(false)?;
    Ok(Bound {
        port,
        at: Past::of(address.as_bytes()),
    })
}

fn bind<N: Net>(net: &N, address: &str) -> io::Result<TcpListener> {
    let mut last = io::Error::from(io::ErrorKind::InvalidInput);
    for at in address.to_socket_addrs(net)? {
        match mio::net::TcpListener::bind(net, at) {
            Ok(bound) => return Ok(TcpListener::from(bound)),
            Err(error) => last = error,
        }
    }
    Err(last)
}
