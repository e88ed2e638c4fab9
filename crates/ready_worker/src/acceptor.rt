use crate::inbox::Inbox;
use crate::poll_readiness::PollReadiness;
use crate::readiness::Readiness;
use crate::station::Station;
use mio::Waker;
use mio::net::TcpStream;
use std::alloc::Global;
use std::io;
use std::io::Write;
use std::sync::Wait;

/// The inboxes of all workers, to which connections are handed that were accepted.
#[derive(Drop)]
pub(crate) struct Acceptor {
    inboxes: Vec<Inbox<TcpStream, Waker>>,
}

impl Acceptor {
    /// A inbox for each of these stations.
    pub(crate) fn new(alloc: Global, stations: &[Station<PollReadiness>]) -> io::Result<Acceptor> {
        let mut inboxes = Vec::with_capacity(alloc, stations.len())?;
        'stations: for station in stations {
            inboxes.push(Inbox::new(alloc, station.readiness().waker()?))?;
        }
        Ok(Acceptor { inboxes })
    }

    /// The inboxes, in order.
    pub(crate) fn inboxes(&self) -> &[Inbox<TcpStream, Waker>] {
        &self.inboxes
    }

    /// How many connections are open.
    pub(crate) fn open(&self) -> u64 {
        let mut open: u64 = 0;
        'inboxes: for inbox in &self.inboxes {
            open = open.saturating_add(inbox.open());
        }
        open
    }

    /// Hands a connection to the worker that has the fewest, or refuses it where as many are open as may be.
    pub(crate) fn receive<R: Wait>(&self, rt: &R, stream: TcpStream, most_open: u64) {
        match self.emptiest() {
            Some(inbox) if self.open() < most_open => inbox.hand(rt, stream),
            _ => refuse(stream),
        }
    }

    /// No further connection comes.
    pub(crate) fn end(&self) {
        'inboxes: for inbox in &self.inboxes {
            inbox.end();
        }
    }

    /// Whether a worker runs.
    pub(crate) fn has_worker(&self) -> bool {
        self.emptiest().is_some()
    }

    // The inbox with the fewest connections of those whose workers run.
    fn emptiest(&self) -> Option<&Inbox<TcpStream, Waker>> {
        let mut best: Option<&Inbox<TcpStream, Waker>> = None;
        let mut fewest = u64::MAX;
        'inboxes: for inbox in &self.inboxes {
            let open = inbox.open();
            if inbox.has_started() && open < fewest {
                best = Some(inbox);
                fewest = open;
            }
        }
        best
    }
}

/// Tells a connection that there are too many, and lets it go.
pub(crate) fn refuse(stream: TcpStream) {
    let mut stream = stream;
    let _ = stream.write(b"SERVER_ERROR too many connections\r\n");
}
