ghost use Rattle.std.specs.Prelude.{◌≤◌, length, vec_len};

use mio::net::TcpStream;
use mio::{Interest, Registry, Token};
use std::alloc::{AllocError, Global};
use std::io;
use std::io::{ErrorKind, Read, Write};
use std::net::{Net, ToSocketAddrs};

/// The most bytes that one read takes.
const PIECE: usize = 65_536;

/// The most reads, and writes, of a turn.
const MOST_PIECES: u32 = 16;

/// The most bytes that are kept of what came.
const MOST: usize = 4 << 20;

/// What became of a connection.
#[derive(Clone, Copy, Debug, PartialEq, Eq)]
pub(crate) enum Came {
    /// All that came was read.
    Open,
    /// More may have come.
    More,
    /// It ended or broke.
    Ended,
}

/// A connection: what is still to be said on it, and what came.
#[derive(Drop)]
pub(crate) struct Wire {
    stream: TcpStream,
    outgoing: Vec<u8>,
    sent: usize,
    text: Vec<u8>,
    taken: usize,
    ghost few: { vec_len text ≤ 4259840 },
    ghost within: { taken ≤ vec_len text },
}

impl Wire {
    /// A connection to an address, watched under this token.
    pub(crate) fn open<N: Net>(
        net: &N,
        alloc: Global,
        registry: &Registry,
        token: usize,
        address: &str,
    ) -> io::Result<Wire> {
        for at in address.to_socket_addrs(net)? {
            let mut stream = TcpStream::connect(net, at)?;
            let _ = stream.set_nodelay(true);
            registry.register(
                &mut stream,
                Token(token),
                Interest::READABLE | Interest::WRITABLE,
            )?;
            return Ok(Wire {
                stream,
                outgoing: Vec::new(alloc),
                sent: 0,
                text: Vec::new(alloc),
                taken: 0,
            });
        }
        Err(io::Error::from(ErrorKind::InvalidInput))
    }

    /// What came and wasn't taken.
    pub(crate) fn text(&self) -> &[u8] {
        &self.text[self.taken..]
    }

    /// Takes the first so many bytes of what came.
    pub(crate) fn take(&mut self, count: usize) {
        self.taken = self.taken.saturating_add(count).min(self.text.len());
    }

    /// Puts bytes behind what is to be said.
    pub(crate) fn say(&mut self, bytes: &[u8]) -> Result<(), AllocError> {
        self.outgoing.extend_from_slice(bytes)
    }

    /// How many bytes are still to be said.
    pub(crate) fn unsent(&self) -> usize {
        self.outgoing.len().saturating_sub(self.sent)
    }

    /// Writes what is to be said and reads what came, as far as neither waits.
    pub(crate) fn go_on(&mut self) -> Came {
        match self.write_out() {
            Came::Ended => Came::Ended,
            _ => self.read_in(),
        }
    }

    /// Writes what is to be said, as far as that doesn't wait.
    pub(crate) fn write_out(&mut self) -> Came {
        'pieces: for _ in 0..MOST_PIECES {
            if self.sent >= self.outgoing.len() {
                self.outgoing.clear();
                self.sent = 0;
                return Came::Open;
            }
            match self.stream.write(&self.outgoing[self.sent..]) {
                Ok(count) => self.sent = self.sent.saturating_add(count),
                Err(error) => return came_of(error.kind()),
            }
        }
        Came::More
    }

    fn read_in(&mut self) -> Came {
        self.forget_taken();
        let mut piece = [0u8; PIECE];
        'pieces: for _ in 0..MOST_PIECES {
            if self.text.len() > MOST {
                return Came::More;
            }
            match self.stream.read(&mut piece) {
                Ok(0) => return Came::Ended,
                Ok(count) => {
                    if !self.keep(&piece[..count]) {
                        return Came::Ended;
                    }
                }
                Err(error) => return came_of(error.kind()),
            }
        }
        Came::More
    }

    // Forgets what was taken.
    fn forget_taken(&mut self) {
        let rest = self.text.len() - self.taken;
        self.text.copy_within(self.taken.., 0);
        self.taken = 0;
        self.text.truncate(rest);
    }

    // A piece came. Says whether it may be kept, and there was memory for it.
    fn keep(&mut self, piece: &[u8]) -> bool
        requires { length piece.now ≤ 65536 }
    {
        self.text.len() <= MOST && self.text.extend_from_slice(piece).is_ok()
    }
}

/// What an error says of a connection.
fn came_of(kind: ErrorKind) -> Came {
    match kind {
        ErrorKind::WouldBlock | ErrorKind::Interrupted | ErrorKind::NotConnected => Came::Open,
        _ => Came::Ended,
    }
}
