use crate::crowd::{Crowd, CrowdChange, MOST_OPEN};
use crate::ready_listener::ReadyListener;
use crate::watch::Watch;
use edge_io::{Failed, Listener, ReadEdge, WriteEdge};
use mio::Poll;
use std::io;
use std::net::{Net, TcpStream};
use tcp_edge::TcpEdge;

/// A port that tells which number the system chose for it, where its address leaves that open, and once when streams that
/// it accepted can't be accepted any more, or are refused, and when they can come again.
#[derive(Drop)]
pub struct ToldEdge<'w, N, W> {
    port: TcpEdge<N>,
    watch: &'w W,
    accepted: bool,
    troubled: bool,
    crowd: Crowd,
}

impl<'w, N, W: Watch> ToldEdge<'w, N, W> {
    ghost use Rattle.std.specs.Prelude.{◌≡◌, option_copied};

    /// Tells of this port.
    pub fn new(port: TcpEdge<N>, watch: &'w W) -> ToldEdge<'w, N, W>
        ensures { result.port ≡ port }
    {
        ToldEdge {
            port,
            watch,
            accepted: false,
            troubled: false,
            crowd: Crowd::new(),
        }
    }

    /// Why the port's last call that failed did so: none where none failed.
    pub fn last_error(&self) -> Option<&io::Error>
        ensures { option_copied result ≡ self.now.port.last_error }
    {
        self.port.last_error()
    }

    fn tell_number(&self) {
        if let Ok(at) = self.port.local_addr() {
            self.watch.listens(at);
        }
    }

    // Tells what changed with a stream that came, or with none. One that fails before any came ends serving, which tells it.
    fn tell(&mut self, came: bool)
        ensures { self.new.port ≡ self.old.port }
    {
        self.accepted = self.accepted || came;
        let troubled = !came || self.port.is_full();
        if !self.accepted || troubled == self.troubled {
            return;
        }
        self.troubled = troubled;
        if !troubled {
            self.watch.recovers();
        } else if came {
            self.watch.is_full();
        } else {
            self.watch.fails(self.port.last_error());
        }
    }
}

impl<N: Net, W: Watch> Listener for ToldEdge<'_, N, W> {
    ghost use Rattle.std.specs.Prelude.{None, false, IsSome};
    ghost use Rattle.std.specs.Option.{option_map};

    type Incoming = ReadEdge<TcpStream>;

    type Outgoing = WriteEdge<TcpStream>;

    ghost faults = { λ l. l.port.faults };

    ghost accepted = { λ l. l.port.accepted };

    ghost over = { λ _. false };

    ghost to_come = { λ _. None };

    ghost at = { λ l. option_map (λ b. b.at.bytes) l.port.listener };

    ghost listened = { λ _ _ after. IsSome after.port.listener };

    fn listen(&mut self, address: &str) -> Result<(), Failed> {
        self.port.listen(address)?;
        if address.ends_with(":0") {
            self.tell_number();
        }
        Ok(())
    }

    fn accept(&mut self) -> Result<Option<(ReadEdge<TcpStream>, WriteEdge<TcpStream>)>, Failed> {
        self.port.accept()
    }
}

impl<N: Net, W: Watch> ReadyListener for ToldEdge<'_, N, W> {
    ghost use Rattle.std.specs.Prelude.{◌≡◌, true};

    ghost ready = { λ _. true };

    fn is_ready(&self) -> bool {
        true
    }

    fn poll(&self) -> io::Result<Poll> {
        self.port.poll()
    }

    fn accept_stream(&mut self) -> Result<mio::net::TcpStream, Failed> {
        let next = self.port.accept_stream();
        self.tell(next.is_ok());
        next
    }

    fn is_full(&self) -> bool {
        self.port.is_full()
    }

    fn most_open(&self) -> u64
        ensures { result ≡ 10000 }
    {
        MOST_OPEN
    }

    fn note_open(&mut self, open: u64) {
        match self.crowd.note(open) {
            CrowdChange::None => {}
            CrowdChange::Fills => self.watch.refuses(open),
            CrowdChange::Thins => self.watch.recovers(),
        }
    }
}
