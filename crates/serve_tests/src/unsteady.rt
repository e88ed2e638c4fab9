// A port whose accepting fails at some of its calls.
use edge_io::{Failed, Listener, ReadEdge, WriteEdge};
use mio::Poll;
use ready_worker::ReadyListener;
use std::io;
use std::net::{Net, TcpStream};
use tcp_edge::TcpEdge;

/// A port whose calls that accept fail from one number to another, counted from 1.
#[derive(Drop)]
pub(crate) struct Unsteady<N> {
    port: TcpEdge<N>,
    failing: (u64, u64),
    calls: u64,
}

impl<N> Unsteady<N> {
    ghost use Rattle.std.specs.Prelude.{◌≡◌};

    pub(crate) fn new(port: TcpEdge<N>, failing: (u64, u64)) -> Unsteady<N> {
        Unsteady {
            port,
            failing,
            calls: 0,
        }
    }

    // Whether the next call fails.
    fn fails(&mut self) -> bool
        ensures { self.new.port ≡ self.old.port }
    {
        self.calls = self.calls.saturating_add(1);
        self.failing.0 <= self.calls && self.calls <= self.failing.1
    }
}

// Its faults stand at the last value of a `u64`.
impl<N: Net> Listener for Unsteady<N> {
    ghost use Rattle.std.specs.Prelude.{◌-◌, ◌^◌, None, false, ⊤};
    ghost use Rattle.std.specs.Option.{option_map};

    type Incoming = ReadEdge<TcpStream>;

    type Outgoing = WriteEdge<TcpStream>;

    ghost faults = { λ _. 2 ^ 64 - 1 };

    ghost accepted = { λ l. l.port.accepted };

    ghost over = { λ _. false };

    ghost to_come = { λ _. None };

    ghost at = { λ l. option_map (λ b. b.at.bytes) l.port.listener };

    ghost listened = { λ _ _ _. ⊤ };

    fn listen(&mut self, address: &str) -> Result<(), Failed> {
        self.port.listen(address)
    }

    fn accept(&mut self) -> Result<Option<(ReadEdge<TcpStream>, WriteEdge<TcpStream>)>, Failed> {
        if self.fails() {
            return Err(Failed);
        }
        self.port.accept()
    }
}

impl<N: Net> ReadyListener for Unsteady<N> {
    ghost use Rattle.std.specs.Prelude.{true};

    ghost ready = { λ _. true };

    fn is_ready(&self) -> bool {
        true
    }

    fn poll(&self) -> io::Result<Poll> {
        self.port.poll()
    }

    fn accept_stream(&mut self) -> Result<mio::net::TcpStream, Failed> {
        if self.fails() {
            return Err(Failed);
        }
        self.port.accept_stream()
    }

    fn is_full(&self) -> bool {
        self.port.is_full()
    }

    fn most_open(&self) -> u64 {
        self.port.most_open()
    }

    fn note_open(&mut self, _open: u64) {}
}
