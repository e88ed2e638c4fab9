// The connections of a member in memory, as streams that its worker watches.
use crate::line::{Line, Presence};
use ready_worker::{Notice, Readiness, Wake};
use std::alloc::{AllocError, Global};
use std::io;
use std::io::{ErrorKind, Read, Write};
use std::sync::Mutex;
use std::time::Duration;

/// The connections of a member.
#[derive(Drop)]
pub(crate) struct Lines {
    alloc: Global,
    lines: Mutex<Vec<Line>>,
}

impl Lines {
    /// So many connections, of which nothing came.
    pub(crate) fn new(alloc: Global, count: usize) -> Result<Lines, AllocError> {
        let mut lines = Vec::new(alloc);
        for _ in 0..count {
            lines.push(Line::new(alloc))?;
        }
        Ok(Lines {
            alloc,
            lines: Mutex::new(lines),
        })
    }

    /// A client says this.
    pub(crate) fn say(&self, number: usize, bytes: &[u8]) -> Result<(), AllocError> {
        if let Some(mut lines) = self.lines.try_lock() {
            if let Some(line) = lines.get_mut(number) {
                return line.say(bytes);
            }
        }
        Ok(())
    }

    /// A client goes away.
    pub(crate) fn leave(&self, number: usize, presence: Presence) {
        if let Some(mut lines) = self.lines.try_lock() {
            if let Some(line) = lines.get_mut(number) {
                line.leave(presence);
            }
        }
    }

    /// What a client heard from a place on.
    pub(crate) fn heard(&self, number: usize, from: usize) -> Result<Vec<u8>, AllocError> {
        let mut heard = Vec::new(self.alloc);
        if let Some(lines) = self.lines.try_lock() {
            if let Some(line) = lines.get(number) {
                heard.extend_from_slice(line.heard(from))?;
            }
        }
        Ok(heard)
    }

    /// The stream of a connection.
    pub(crate) fn stream(&self, number: usize) -> LineStream<'_> {
        LineStream {
            lines: self,
            number,
        }
    }

    fn watch(&self, number: usize, key: usize) {
        if let Some(mut lines) = self.lines.try_lock() {
            if let Some(line) = lines.get_mut(number) {
                line.watch(key);
            }
        }
    }

    fn tell(&self, notices: &mut Vec<Notice>) {
        if let Some(mut lines) = self.lines.try_lock() {
            for line in lines.iter_mut() {
                line.tell(notices);
            }
        }
    }
}

/// The stream of a connection.
#[derive(Drop)]
pub(crate) struct LineStream<'t> {
    lines: &'t Lines,
    number: usize,
}

impl Read for LineStream<'_> {
    fn read(&mut self, into: &mut [u8]) -> io::Result<usize> {
        let Some(mut lines) = self.lines.lines.try_lock() else {
            return Err(ErrorKind::WouldBlock.into());
        };
        match lines.get_mut(self.number) {
            Some(line) => line.read(into),
            None => Ok(0),
        }
    }
}

impl Write for LineStream<'_> {
    fn write(&mut self, piece: &[u8]) -> io::Result<usize> {
        let Some(mut lines) = self.lines.lines.try_lock() else {
            return Err(ErrorKind::WouldBlock.into());
        };
        match lines.get_mut(self.number) {
            Some(line) => line.write(piece),
            None => Err(ErrorKind::BrokenPipe.into()),
        }
    }

    fn flush(&mut self) -> io::Result<()> {
        Ok(())
    }
}

/// Tells of the connections of which something came, and waits for nothing.
#[derive(Drop)]
pub(crate) struct LineReadiness<'t> {
    lines: &'t Lines,
    notices: Vec<Notice>,
    limit: Option<Duration>,
}

impl<'t> LineReadiness<'t> {
    pub(crate) fn new(lines: &'t Lines) -> LineReadiness<'t> {
        LineReadiness {
            lines,
            notices: Vec::new(lines.alloc),
            limit: None,
        }
    }
}

impl<'t> Readiness for LineReadiness<'t> {
    ghost use Rattle.std.specs.Duration.{as_nanos};
    ghost use Rattle.std.specs.Option.{option_map};

    ghost waited = { λ r. option_map as_nanos r.limit };

    type Stream = LineStream<'t>;

    type Waker = NoWaker;

    fn waker(&self) -> io::Result<NoWaker> {
        Ok(NoWaker)
    }

    fn register(&mut self, stream: &mut LineStream<'t>, key: usize) -> bool {
        self.lines.watch(stream.number, key);
        true
    }

    fn wait(&mut self, limit: Option<Duration>) {
        self.limit = limit;
        self.notices.clear();
        self.lines.tell(&mut self.notices);
    }

    fn ready(&self) -> &[Notice] {
        &self.notices
    }
}

/// Nobody waits.
#[derive(Drop)]
pub(crate) struct NoWaker;

impl Wake for NoWaker {
    fn wake(&self) {}
}
