// A port at which few connections are open at a time.
use edge_io::{Failed, Listener, ReadEdge, WriteEdge};
use mio::Poll;
use ready_worker::ReadyListener;
use std::io;
use std::net::{Net, TcpStream};
use tcp_edge::TcpEdge;

/// A port of which so many connections are open at a time at most.
#[derive(Drop)]
pub(crate) struct Narrow<N> {
    pub(crate) port: TcpEdge<N>,
    pub(crate) most_open: u64,
}

impl<N: Net> Listener for Narrow<N> {
    ghost use Rattle.std.specs.Prelude.{None, false, ⊤};
    ghost use Rattle.std.specs.Option.{option_map};

    type Incoming = ReadEdge<TcpStream>;

    type Outgoing = WriteEdge<TcpStream>;

    ghost faults = { λ l. l.port.faults };

    ghost accepted = { λ l. l.port.accepted };

    ghost over = { λ _. false };

    ghost to_come = { λ _. None };

    ghost at = { λ l. option_map (λ b. b.at.bytes) l.port.listener };

    ghost listened = { λ _ _ _. ⊤ };

    fn listen(&mut self, address: &str) -> Result<(), Failed> {
        self.port.listen(address)
    }

    fn accept(&mut self) -> Result<Option<(ReadEdge<TcpStream>, WriteEdge<TcpStream>)>, Failed> {
        self.port.accept()
    }
}

impl<N: Net> ReadyListener for Narrow<N> {
    ghost use Rattle.std.specs.Prelude.{true};

    ghost ready = { λ _. true };

    fn is_ready(&self) -> bool {
        true
    }

    fn poll(&self) -> io::Result<Poll> {
        self.port.poll()
    }

    fn accept_stream(&mut self) -> Result<mio::net::TcpStream, Failed> {
        self.port.accept_stream()
    }

    fn is_full(&self) -> bool {
        self.port.is_full()
    }

    fn most_open(&self) -> u64 {
        self.most_open
    }

    fn note_open(&mut self, _open: u64) {}
}
