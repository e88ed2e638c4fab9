ghost use Rattle.std.specs.Prelude.{◌≡◌, ◌+◌, ◌≤◌, ◌^◌, Bool, IsErr, OnErr, OnOk, false, true};
ghost use Rattle.std.specs.Result.{IsErrAnd};
ghost use Rattle.std.specs.IoError.{error_kind};
ghost use Rattle.edge_io.specs.Faults.{HasCause};

use crate::crowd::MOST_OPEN;
use edge_io::{Failed, Listener, MemoryListener};
use mio::Poll;
use mio::net::TcpStream;
use std::io;
use std::io::ErrorKind;
use std::net::Net;
use tcp_edge::TcpEdge;

/// A listener that may hand out its connections as streams that do not wait. One that does not refuses to, and stays.
pub trait ReadyListener: Listener {
    // Whether it hands out such streams.
    ghost ready: { Self → Bool };

    /// Whether it hands out such streams.
    fn is_ready(&self) -> bool
        ensures { result ≡ Self.ready self.now };

    /// A poll at which its streams can be waited for: `Unsupported` where it has none.
    fn poll(&self) -> io::Result<Poll>
        ensures unsupported { Self.ready self.now ≡ false → IsErrAnd result (λ e. error_kind e ≡ ErrorKind.Unsupported) };

    /// The next connection, which is waited for: where it hands out no such streams it fails, and counts no fault.
    fn accept_stream(&mut self) -> Result<TcpStream, Failed>
        ensures unsupported { Self.ready self.old ≡ false → IsErr result × (self.new ≡ self.old) }
        ensures stays { Self.ready self.new ≡ Self.ready self.old }
        ensures same_at { Self.at self.new ≡ Self.at self.old }
        ensures limit { Self.ready self.old ≡ true → Self.accepted self.new ≤ 2 ^ 62 }
        ensures accepts { OnOk result (Self.accepted self.new ≡ Self.accepted self.old + 1) }
        ensures none { OnErr result (Self.accepted self.new ≡ Self.accepted self.old) }
        ensures cause { Self.ready self.old ≡ true → HasCause (Self.faults self.old) (Self.faults self.new) result };

    /// Whether the connection that came last took what the next one would need: it is to be told so and let go.
    fn is_full(&self) -> bool;

    /// The most connections that are served at a time: a further one is told so and let go.
    fn most_open(&self) -> u64;

    /// A connection comes when so many others are open.
    fn note_open(&mut self, open: u64)
        ensures ready { Self.ready self.new ≡ Self.ready self.old }
        ensures same_at { Self.at self.new ≡ Self.at self.old }
        ensures accepted { Self.accepted self.new ≡ Self.accepted self.old }
        ensures over { Self.over self.new ≡ Self.over self.old }
        ensures faults { Self.faults self.new ≡ Self.faults self.old };
}

impl<N: Net> ReadyListener for TcpEdge<N> {
    ghost use Rattle.std.specs.Prelude.{◌≡◌, true};

    ghost ready = { λ _. true };

    fn is_ready(&self) -> bool {
        true
    }

    fn poll(&self) -> io::Result<Poll> {
        TcpEdge::poll(self)
    }

    fn accept_stream(&mut self) -> Result<TcpStream, Failed> {
        TcpEdge::accept_stream(self)
    }

    fn is_full(&self) -> bool {
        TcpEdge::is_full(self)
    }

    fn most_open(&self) -> u64
        ensures { result ≡ 10000 }
    {
        MOST_OPEN
    }

    fn note_open(&mut self, _open: u64) {}
}

// Its connections are in memory: there is nothing to wait for.
impl ReadyListener for MemoryListener {
    ghost use Rattle.std.specs.Prelude.{false};

    ghost ready = { λ _. false };

    fn is_ready(&self) -> bool {
        false
    }

    fn poll(&self) -> io::Result<Poll> {
        Err(io::Error::from(ErrorKind::Unsupported))
    }

    fn accept_stream(&mut self) -> Result<TcpStream, Failed> {
        Err(Failed)
    }

    fn is_full(&self) -> bool {
        false
    }

    fn most_open(&self) -> u64 {
        MOST_OPEN
    }

    fn note_open(&mut self, _open: u64) {}
}
