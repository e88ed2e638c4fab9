ghost use Rattle.std.specs.Prelude.{◌≤◌, ◌^◌};

// A listener whose clients hear each other.
use edge_io::{Failed, Listener, Past, ReadEdge, WriteEdge};
use mio::Poll;
use mio::net::TcpStream;
use ready_worker::ReadyListener;
use std::alloc::{AllocError, Global};
use std::io::{ErrorKind, Read, Write};
use std::sync::atomic::{AtomicUsize, Ordering};
use std::sync::{Arc, Mutex};
use std::{io, thread};

/// How often a client that waits looks before it says nothing more.
const TURNS: u32 = 1_000_000_000;

/// The most connections that a listener hands out.
const MOST: u64 = 1 << 62;

/// What a client heard, and how many bytes that is.
#[derive(Drop)]
pub(crate) struct Heard {
    pub(crate) bytes: Mutex<Vec<u8>>,
    count: AtomicUsize,
}

impl Heard {
    pub(crate) fn nothing(alloc: Global) -> Result<Arc<Heard>, AllocError> {
        let heard = Heard {
            bytes: Mutex::new(Vec::new(alloc)),
            count: AtomicUsize::new(0),
        };
        Ok(Arc::new(alloc, heard)?)
    }
}

/// Says a text once another client heard so many bytes.
#[derive(Drop)]
pub(crate) struct Mouth {
    pub(crate) text: &'static [u8],
    pub(crate) due: usize,
    pub(crate) other: Arc<Heard>,
}

impl Mouth {
    fn next(&mut self) -> &'static [u8] {
        'turns: for _ in 0..TURNS {
            if self.other.count.load(Ordering::SeqCst) >= self.due {
                let text = self.text;
                self.text = b"";
                return text;
            }
            thread::yield_now();
        }
        b""
    }
}

impl Read for Mouth {
    fn read(&mut self, into: &mut [u8]) -> io::Result<usize> {
        let text = self.next();
        let most = text.len().min(into.len());
        into[..most].copy_from_slice(&text[..most]);
        Ok(most)
    }
}

/// Keeps what a client hears.
#[derive(Drop)]
pub(crate) struct Ear(pub(crate) Arc<Heard>);

impl Write for Ear {
    fn write(&mut self, piece: &[u8]) -> io::Result<usize> {
        let Some(mut bytes) = self.0.bytes.try_lock() else {
            return Err(ErrorKind::WouldBlock.into());
        };
        match bytes.extend_from_slice(piece) {
            Ok(()) => {}
            Err(AllocError) => return Err(ErrorKind::OutOfMemory.into()),
        }
        self.0.count.fetch_add(piece.len(), Ordering::SeqCst);
        Ok(piece.len())
    }

    fn flush(&mut self) -> io::Result<()> {
        Ok(())
    }
}

/// Hands out its clients, the last first.
#[derive(Drop)]
pub(crate) struct Door {
    at: Option<Past>,
    to_come: Vec<(Mouth, Ear)>,
    accepted: u64,
    over: bool,
    ghost limit: { accepted ≤ 2 ^ 62 },
}

impl Door {
    pub(crate) fn new(to_come: Vec<(Mouth, Ear)>) -> Door {
        Door {
            at: None,
            to_come,
            accepted: 0,
            over: false,
        }
    }
}

// Its clients are no streams of the system.
impl ReadyListener for Door {
    ghost use Rattle.std.specs.Prelude.{false};

    ghost ready = { λ _. false };

    fn is_ready(&self) -> bool {
        false
    }

    fn poll(&self) -> io::Result<Poll> {
        Err(io::Error::from(ErrorKind::Unsupported))
    }

    fn accept_stream(&mut self) -> Result<TcpStream, Failed> {
        Err(Failed)
    }

    fn is_full(&self) -> bool {
        false
    }

    fn most_open(&self) -> u64 {
        MOST
    }

    fn note_open(&mut self, _open: u64) {}
}

impl Listener for Door {
    ghost use Rattle.std.specs.Prelude.{◌≡◌, None, ⊤};
    ghost use Rattle.std.specs.Option.{option_map};

    type Incoming = ReadEdge<Mouth>;

    type Outgoing = WriteEdge<Ear>;

    ghost faults = { λ _. 0 };

    ghost accepted = { λ l. l.accepted };

    ghost over = { λ l. l.over };

    ghost to_come = { λ _. None };

    ghost at = { λ l. option_map (λ b. b.bytes) l.at };

    ghost listened = { λ _ _ _. ⊤ };

    fn listen(&mut self, address: &str) -> Result<(), Failed> {
        self.at = Some(Past::of(address.as_bytes()));
        Ok(())
    }

    fn accept(&mut self) -> Result<Option<(ReadEdge<Mouth>, WriteEdge<Ear>)>, Failed> {
        if self.over || self.accepted >= MOST {
            self.over = true;
            return Ok(None);
        }
        match self.to_come.pop() {
            Some((mouth, ear)) => {
                self.accepted += 1;
                Ok(Some((ReadEdge::new(mouth), WriteEdge::new(ear))))
            }
            None => {
                self.over = true;
                Ok(None)
            }
        }
    }
}
