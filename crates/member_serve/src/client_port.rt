use member_links::{Arrival, Port};
use mio::net::TcpStream;
use mio::{Poll, Registry};
use ready_worker::Watch;
use std::io;
use std::io::Write;
use std::net::Net;

/// The token of the port where clients connect.
pub(crate) const CLIENT_PORT: usize = (1 << 40) + 1;

/// How long an accept that failed is put off, in milliseconds.
const PUT_OFF: u64 = 10;

/// The errors that say that no descriptor is left: EMFILE of the process, ENFILE of the system.
const NO_DESCRIPTOR: [i32; 2] = [24, 23];

/// Where clients come in, with a descriptor in reserve, so that one more than there are descriptors for is told so.
#[derive(Drop)]
pub(crate) struct ClientPort {
    port: Port,
    is_open: bool,
    reserve: Option<Poll>,
    until: u64,
    troubled: bool,
}

/// A client that came.
#[derive(Drop)]
pub(crate) enum NextClient {
    /// It can be served.
    Client(TcpStream),
    /// There is no descriptor for a further one.
    Last(TcpStream),
    /// None came.
    None,
}

impl ClientPort {
    /// No client is accepted at this port yet.
    pub(crate) fn new(port: Port) -> ClientPort {
        ClientPort {
            port,
            is_open: false,
            reserve: None,
            until: 0,
            troubled: false,
        }
    }

    /// Whether clients are accepted.
    pub(crate) fn is_open(&self) -> bool {
        self.is_open
    }

    /// Clients are accepted from now on.
    pub(crate) fn open(&mut self, registry: &Registry) -> io::Result<()> {
        self.is_open = true;
        self.port.watch(registry, CLIENT_PORT)
    }

    /// A client may be there.
    pub(crate) fn note_ready(&mut self) {
        self.port.note_ready();
    }

    /// Whether a client may be there that can be accepted now.
    pub(crate) fn is_ready(&self, now: u64) -> bool {
        self.is_open && self.port.is_ready() && self.until <= now
    }

    /// The next client.
    pub(crate) fn next<N: Net, W: Watch>(&mut self, net: &N, watch: &W, now: u64) -> NextClient {
        if !self.is_ready(now) {
            return NextClient::None;
        }
        self.fill_reserve(net);
        match self.port.accept() {
            Arrival::Stream(stream) => {
                self.recover(watch);
                NextClient::Client(stream)
            }
            Arrival::None => NextClient::None,
            Arrival::Failed(error) => self.next_behind(watch, &error, now),
        }
    }

    // The next client, where accepting failed: by the descriptor in reserve, where no other is left.
    fn next_behind<W: Watch>(&mut self, watch: &W, error: &io::Error, now: u64) -> NextClient {
        if has_no_descriptor(error) {
            return self.next_by_reserve(watch, now);
        }
        self.fail(watch, error, now);
        NextClient::None
    }

    // The next client, by the descriptor in reserve.
    fn next_by_reserve<W: Watch>(&mut self, watch: &W, now: u64) -> NextClient {
        self.reserve = None;
        match self.port.accept() {
            Arrival::Stream(stream) => {
                self.fill_up(watch);
                NextClient::Last(stream)
            }
            Arrival::None => NextClient::None,
            Arrival::Failed(error) => {
                self.fail(watch, &error, now);
                NextClient::None
            }
        }
    }

    // No descriptor is left.
    fn fill_up<W: Watch>(&mut self, watch: &W) {
        if !self.troubled {
            self.troubled = true;
            watch.is_full();
        }
    }

    fn fill_reserve<N: Net>(&mut self, net: &N) {
        if self.reserve.is_none() {
            self.reserve = Poll::new(net).ok();
        }
    }

    // Accepting failed, and is put off.
    fn fail<W: Watch>(&mut self, watch: &W, error: &io::Error, now: u64) {
        self.until = now.saturating_add(PUT_OFF);
        if !self.troubled {
            self.troubled = true;
            watch.fails(Some(error));
        }
    }

    // A client could be accepted, with a descriptor left.
    fn recover<W: Watch>(&mut self, watch: &W) {
        if self.troubled && self.reserve.is_some() {
            self.troubled = false;
            watch.recovers();
        }
    }
}

/// Tells a client why it isn't served, and lets it go.
pub(crate) fn refuse(stream: TcpStream, line: &[u8]) {
    let mut stream = stream;
    let _ = stream.write(line);
}

fn has_no_descriptor(error: &io::Error) -> bool {
    match error.raw_os_error() {
        Some(code) => NO_DESCRIPTOR.contains(&code),
        None => false,
    }
}
