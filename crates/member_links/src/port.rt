use mio::net::{TcpListener, TcpStream};
use mio::{Interest, Registry, Token};
use std::io;
use std::io::ErrorKind;
use std::net::{Net, SocketAddr, ToSocketAddrs};

/// How many connections in a row may be lost before they are handed out.
const RETRIES: u32 = 1_000_000;

/// What a port has.
#[derive(Drop)]
pub enum Arrival {
    /// A connection.
    Stream(TcpStream),
    /// None for now.
    None,
    /// No connection can be accepted, for this reason.
    Failed(io::Error),
}

/// A port whose connections are accepted without waiting.
#[derive(Drop)]
pub struct Port {
    listener: TcpListener,
    ready: bool,
}

impl Port {
    /// Listens at the first address of a text that can be bound.
    pub fn listen<N: Net>(net: &N, address: &str) -> io::Result<Port> {
        let mut last = io::Error::from(ErrorKind::InvalidInput);
        for at in address.to_socket_addrs(net)? {
            match TcpListener::bind(net, at) {
                Ok(listener) => {
                    return Ok(Port {
                        listener,
                        ready: true,
                    });
                }
                Err(error) => last = error,
            }
        }
        Err(last)
    }

    /// Connections are told of from now on, under this token.
    pub fn watch(&mut self, registry: &Registry, token: usize) -> io::Result<()> {
        registry.register(&mut self.listener, Token(token), Interest::READABLE)
    }

    /// A connection may be there.
    pub fn note_ready(&mut self) {
        self.ready = true;
    }

    /// Whether a connection may be there.
    pub fn is_ready(&self) -> bool {
        self.ready
    }

    /// The next connection. One that was lost on its way is passed over.
    pub fn accept(&mut self) -> Arrival {
        if !self.ready {
            return Arrival::None;
        }
        'tries: for _ in 0..RETRIES {
            match self.listener.accept() {
                Ok((stream, _)) => {
                    let _ = stream.set_nodelay(true);
                    return Arrival::Stream(stream);
                }
                Err(error) => match error.kind() {
                    ErrorKind::WouldBlock => break 'tries,
                    ErrorKind::Interrupted
                    | ErrorKind::ConnectionAborted
                    | ErrorKind::ConnectionReset => {}
                    _ => return Arrival::Failed(error),
                },
            }
        }
        self.ready = false;
        Arrival::None
    }
}

/// The first address of a text, if it has one.
pub(crate) fn resolved<N: Net>(net: &N, address: &str) -> Option<SocketAddr> {
    for at in address.to_socket_addrs(net).ok()? {
        return Some(at);
    }
    None
}
