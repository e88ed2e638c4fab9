ghost use Rattle.std.specs.Prelude.{◌≤◌, length, vec_len};

use mio::net::TcpStream;
use mio::{Interest, Registry, Token};
use std::alloc::{AllocError, Global};
use std::io;
use std::io::{ErrorKind, Read, Write};
use std::net::{Net, ToSocketAddrs};

/// The most bytes that one read takes.
const PIECE: usize = 4_096;

/// The most reads, and writes, of a turn.
const MOST_PIECES: u32 = 64;

/// The most bytes that are kept of what came.
const MOST: usize = 1 << 20;

/// What became of a connection.
#[derive(Clone, Copy, Debug, PartialEq, Eq)]
pub(crate) enum Came {
    /// Its peer may say more.
    Open,
    /// Its peer said all.
    Ended,
    /// Nobody listens at its address.
    Refused,
    /// It broke, or too much came.
    Broken,
}

/// A connection: what is still to be said on it, and what came.
#[derive(Drop)]
pub(crate) struct Wire {
    stream: TcpStream,
    outgoing: Vec<u8>,
    sent: usize,
    text: Vec<u8>,
    ghost few: { vec_len text ≤ 1052672 },
}

impl Wire {
    /// A connection to an address, watched under this token.
    pub(crate) fn open<N: Net>(
        net: &N,
        alloc: Global,
        registry: &Registry,
        token: usize,
        address: &str,
    ) -> io::Result<Wire> {
        for at in address.to_socket_addrs(net)? {
            let mut stream = TcpStream::connect(net, at)?;
            let _ = stream.set_nodelay(true);
            registry.register(
                &mut stream,
                Token(token),
                Interest::READABLE | Interest::WRITABLE,
            )?;
            return Ok(Wire {
                stream,
                outgoing: Vec::new(alloc),
                sent: 0,
                text: Vec::new(alloc),
            });
        }
        Err(io::Error::from(ErrorKind::InvalidInput))
    }

    /// Whether its peer took it.
    pub(crate) fn is_up(&self) -> bool {
        self.stream.peer_addr().is_ok()
    }

    /// What came.
    pub(crate) fn text(&self) -> &[u8] {
        self.text.as_slice()
    }

    /// Puts a text behind what is to be said.
    pub(crate) fn say(&mut self, text: &str) -> Result<(), AllocError> {
        self.outgoing.extend_from_slice(text.as_bytes())
    }

    /// Forgets what came.
    pub(crate) fn forget(&mut self) {
        self.text.clear();
    }

    /// Forgets the first so many bytes that came.
    pub(crate) fn forget_first(&mut self, count: usize) {
        let count = count.min(self.text.len());
        let rest = self.text.len() - count;
        self.text.copy_within(count.., 0);
        self.text.truncate(rest);
    }

    /// Writes what is to be said and reads what came, as far as neither waits.
    pub(crate) fn go_on(&mut self) -> Came {
        match self.write_out() {
            Came::Open => self.read_in(),
            came => came,
        }
    }

    fn write_out(&mut self) -> Came {
        'pieces: for _ in 0..MOST_PIECES {
            if self.sent >= self.outgoing.len() {
                return Came::Open;
            }
            match self.stream.write(&self.outgoing[self.sent..]) {
                Ok(count) => self.sent = self.sent.saturating_add(count),
                Err(error) => match came_of(error.kind()) {
                    Came::Open => return Came::Open,
                    came => return came,
                },
            }
        }
        Came::Open
    }

    fn read_in(&mut self) -> Came {
        let mut piece = [0u8; PIECE];
        'pieces: for _ in 0..MOST_PIECES {
            match self.stream.read(&mut piece) {
                Ok(0) => return Came::Ended,
                Ok(count) => {
                    if !self.take(&piece[..count]) {
                        return Came::Broken;
                    }
                }
                Err(error) => return came_of(error.kind()),
            }
        }
        Came::Open
    }

    // A piece came. Says whether it may be kept, and there was memory for it.
    fn take(&mut self, piece: &[u8]) -> bool
        requires { length piece.now ≤ 4096 }
    {
        self.text.len() <= MOST && self.text.extend_from_slice(piece).is_ok()
    }
}

/// What an error says of a connection.
fn came_of(kind: ErrorKind) -> Came {
    match kind {
        ErrorKind::WouldBlock | ErrorKind::Interrupted | ErrorKind::NotConnected => Came::Open,
        ErrorKind::ConnectionRefused => Came::Refused,
        _ => Came::Broken,
    }
}
