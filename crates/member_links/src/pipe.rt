ghost use Rattle.std.specs.Prelude.{◌≤◌, ◌≡◌, vec_len};

use crate::heard::Heard;
use crate::traffic::Traffic;
use edge_io::{Failed, Sink};
use group_types::Shape;
use link_frames::{Frame, LinkFault, LinkReader, Next};
use mio::net::TcpStream;
use mio::{Interest, Registry, Token};
use outbox::{Outbox, Reading, Sending, TryEdge, TryStream};
use std::alloc::{AllocError, Global};
use std::io;

/// The most bytes that one read takes.
const PIECE: usize = 65_536;

/// The most pieces that are read for one frame: those of the longest, and more.
const MOST_PIECES: u32 = 4_096;

/// Why a stream gives no frame.
#[derive(Clone, Copy, Debug, PartialEq, Eq)]
pub(crate) enum PipeFault {
    /// It ended or broke.
    Broken,
    /// What came is no frame with its sum.
    BadFrame,
    /// There is no memory for the frame, which is the next once more.
    Want,
}

/// A stream of frames: what was read of it and is no frame yet, and what is to be written first.
#[derive(Drop)]
pub(crate) struct Pipe {
    token: usize,
    stream: TryEdge<TcpStream>,
    reader: LinkReader,
    piece: Vec<u8>,
    start: usize,
    end: usize,
    readable: bool,
    ends: bool,
    writable: bool,
    greeting: Outbox,
    traffic: Traffic,
    ghost full: { vec_len piece ≡ 65536 },
    ghost within: { start ≤ end },
    ghost inside: { end ≤ 65536 },
}

impl Pipe {
    /// A stream of which nothing was read, watched under this token.
    fn new(
        alloc: Global,
        shape: Shape,
        token: usize,
        stream: TcpStream,
    ) -> Result<Pipe, AllocError> {
        Ok(Pipe {
            token,
            stream: TryEdge::new(stream),
            reader: LinkReader::new(alloc, shape),
            piece: vec![in alloc; 0; PIECE]?,
            start: 0,
            end: 0,
            readable: false,
            ends: false,
            writable: false,
            greeting: Outbox::new(alloc),
            traffic: Traffic::none(),
        })
    }

    /// The same, told of by a registry from now on.
    pub(crate) fn watched(
        alloc: Global,
        shape: Shape,
        registry: &Registry,
        token: usize,
        stream: TcpStream,
    ) -> io::Result<Pipe> {
        let mut stream = stream;
        let interest = Interest::READABLE | Interest::WRITABLE;
        registry.register(&mut stream, Token(token), interest)?;
        Ok(Pipe::new(alloc, shape, token, stream)?)
    }

    /// What is watched under a token became ready, and its peer may have closed it.
    pub(crate) fn note_ready(&mut self, token: usize, ends: bool) {
        if self.token == token {
            self.readable = true;
            self.writable = true;
            self.ends = self.ends || ends;
        }
    }

    /// Whether its connection stands.
    pub(crate) fn is_connected(&self) -> bool {
        self.writable
    }

    /// Whether there may be something to read without a further notice.
    pub(crate) fn has_input(&self) -> bool {
        self.readable || self.start < self.end
    }

    /// This is to be written before all else.
    pub(crate) fn greet(&mut self, text: &[u8]) -> Result<(), AllocError> {
        match self.greeting.write(text) {
            Ok(_) => Ok(()),
            Err(_) => Err(AllocError),
        }
    }

    /// The next frame, if a whole one is there.
    pub(crate) fn next(&mut self) -> Result<Option<Frame>, PipeFault> {
        'pieces: for _ in 0..MOST_PIECES {
            if self.start == self.end && !self.fill()? {
                return Ok(None);
            }
            if let Some(frame) = self.cut()? {
                return Ok(Some(frame));
            }
        }
        Ok(None)
    }

    /// What the first frame that came says, once what greets went out.
    pub(crate) fn hear(&mut self) -> Heard {
        if self.write_greeting().is_err() {
            return Heard::Broken;
        }
        Heard::of(self.next())
    }

    // Reads the next piece. Says whether one came.
    fn fill(&mut self) -> Result<bool, PipeFault> {
        if !self.readable {
            return Ok(false);
        }
        match self.stream.try_read(&mut self.piece) {
            Ok(Reading::Came(n)) => {
                self.traffic.receive(n);
                self.start = 0;
                self.end = n;
                self.readable = self.ends || n == PIECE;
                Ok(true)
            }
            Ok(Reading::Waits) => {
                self.readable = false;
                Ok(false)
            }
            Ok(Reading::Ended) | Err(Failed) => {
                self.readable = false;
                Err(PipeFault::Broken)
            }
        }
    }

    // The first frame of what was read and not given yet.
    fn cut(&mut self) -> Result<Option<Frame>, PipeFault> {
        match self.reader.next(&self.piece[self.start..self.end]) {
            Ok(Next::Partial) => {
                self.start = self.end;
                Ok(None)
            }
            Ok(Next::Whole { frame, taken }) => {
                self.start += taken;
                Ok(Some(frame))
            }
            Err(LinkFault::BadFrame) => Err(PipeFault::BadFrame),
            Err(LinkFault::Want) => Err(PipeFault::Want),
        }
    }

    /// Writes what greets, as far as the stream takes it. Says whether all of it went out.
    pub(crate) fn write_greeting(&mut self) -> Result<bool, PipeFault> {
        if !self.greeting.is_empty() && self.writable {
            self.writable = write_to(&mut self.stream, &mut self.greeting)?;
        }
        Ok(self.greeting.is_empty())
    }

    /// Writes what waits as far as the stream takes it: first what greets, then this.
    pub(crate) fn write_out(&mut self, outbox: &mut Outbox) -> Result<(), PipeFault> {
        if self.write_greeting()? && !outbox.is_empty() && self.writable {
            let before = outbox.len();
            self.writable = write_to(&mut self.stream, outbox)?;
            self.traffic.send(before.saturating_sub(outbox.len()));
        }
        Ok(())
    }

    /// How much went over it, what greets left out of what was sent.
    pub(crate) fn traffic(&self) -> Traffic {
        self.traffic
    }
}

/// Writes what waits. Says whether the stream takes more.
fn write_to(stream: &mut TryEdge<TcpStream>, outbox: &mut Outbox) -> Result<bool, PipeFault> {
    match outbox.write_out(stream, usize::MAX) {
        Ok(Sending::Waits) => Ok(false),
        Ok(_) => Ok(true),
        Err(Failed) => Err(PipeFault::Broken),
    }
}
