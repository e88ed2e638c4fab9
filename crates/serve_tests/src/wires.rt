ghost use Rattle.std.specs.Prelude.{◌≡◌, ◌≤◌, length, IfOk};

// Connections in memory, whose bytes come and go as a test lets them.
use ready_worker::{Notice, Readiness, Wake};
use std::alloc::{AllocError, Global};
use std::io::{ErrorKind, Read, Write};
use std::sync::Mutex;
use std::time::Duration;
use std::{io, mem};

/// What happens to a connection.
#[derive(Clone, Copy)]
pub(crate) enum Change<'t> {
    /// Its client says this.
    Says(&'t [u8]),
    /// Its client says nothing more.
    Ends,
    /// Each read fails from now on.
    BreaksReading,
    /// Each write fails from now on.
    BreaksWriting,
    /// So many more bytes can be written.
    Takes(usize),
    /// A read gives at most so many bytes from now on.
    Cuts(usize),
}

/// What a read finds once all that came was read.
#[derive(Clone, Copy)]
enum Beyond {
    Nothing,
    End,
    Fault,
}

/// A connection: what came of it, what it takes, and what its client heard.
#[derive(Drop)]
struct Line {
    came: Vec<u8>,
    read: usize,
    reads: usize,
    piece: usize,
    beyond: Beyond,
    room: usize,
    broken: bool,
    heard: Vec<u8>,
    key: Option<usize>,
}

impl Line {
    fn new(alloc: Global) -> Line {
        Line {
            came: Vec::new(alloc),
            read: 0,
            reads: 0,
            piece: usize::MAX,
            beyond: Beyond::Nothing,
            room: 0,
            broken: false,
            heard: Vec::new(alloc),
            key: None,
        }
    }

    fn change(&mut self, change: Change<'_>) -> Result<(), AllocError> {
        match change {
            Change::Says(bytes) => self.came.extend_from_slice(bytes)?,
            Change::Ends => self.beyond = Beyond::End,
            Change::BreaksReading => self.beyond = Beyond::Fault,
            Change::BreaksWriting => self.broken = true,
            Change::Takes(room) => self.room = self.room.saturating_add(room),
            Change::Cuts(piece) => self.piece = piece,
        }
        Ok(())
    }

    // Whether what a read leaves is told no more: its client says nothing more, or a read that is cut leaves some.
    fn ends(&self) -> bool {
        !matches!(self.beyond, Beyond::Nothing) || self.piece != usize::MAX
    }

    fn read(&mut self, into: &mut [u8]) -> io::Result<usize>
        ensures same { length into.new ≡ length into.old }
        ensures bound { IfOk result (λ n. n ≤ length into.new) }
    {
        self.reads = self.reads.saturating_add(1);
        let rest = self.came.get(self.read..).unwrap_or_default();
        let most = rest.len().min(into.len()).min(self.piece);
        if most == 0 {
            return match self.beyond {
                Beyond::Nothing => Err(ErrorKind::WouldBlock.into()),
                Beyond::End => Ok(0),
                Beyond::Fault => Err(ErrorKind::ConnectionReset.into()),
            };
        }
        into[..most].copy_from_slice(&rest[..most]);
        self.read = self.read.saturating_add(most);
        Ok(most)
    }

    fn write(&mut self, piece: &[u8]) -> io::Result<usize>
        ensures bound { IfOk result (λ n. n ≤ length piece.now) }
    {
        if self.broken {
            return Err(ErrorKind::BrokenPipe.into());
        }
        let most = piece.len().min(self.room);
        if most == 0 {
            return Err(ErrorKind::WouldBlock.into());
        }
        match self.heard.extend_from_slice(&piece[..most]) {
            Ok(()) => {}
            Err(AllocError) => return Err(ErrorKind::OutOfMemory.into()),
        }
        self.room -= most;
        Ok(most)
    }
}

/// Connections, and what is to be told of those that are ready.
#[derive(Drop)]
pub(crate) struct Wires {
    lines: Mutex<Vec<Line>>,
    told: Mutex<Vec<Notice>>,
}

impl Wires {
    /// So many connections, of which nothing came and to which nothing can be written.
    pub(crate) fn new(alloc: Global, count: usize) -> Result<Wires, AllocError> {
        let mut lines = Vec::new(alloc);
        for _ in 0..count {
            lines.push(Line::new(alloc))?;
        }
        Ok(Wires {
            lines: Mutex::new(lines),
            told: Mutex::new(Vec::new(alloc)),
        })
    }

    /// Changes a connection, and tells nobody.
    pub(crate) fn change(&self, number: usize, change: Change<'_>) -> Result<(), AllocError> {
        if let Some(mut lines) = self.lines.try_lock() {
            if let Some(line) = lines.get_mut(number) {
                line.change(change)?;
            }
        }
        Ok(())
    }

    /// The next wait tells that this connection is ready.
    pub(crate) fn tell(&self, number: usize) -> Result<(), AllocError> {
        if let Some(notice) = self.notice(number) {
            if let Some(mut told) = self.told.try_lock() {
                told.push(notice)?;
            }
        }
        Ok(())
    }

    /// The stream of a connection.
    pub(crate) fn stream(&self, number: usize) -> Wire<'_> {
        Wire {
            wires: self,
            number,
        }
    }

    /// What was heard on a connection.
    pub(crate) fn heard(&self, alloc: Global, number: usize) -> Result<Vec<u8>, AllocError> {
        let mut heard = Vec::new(alloc);
        if let Some(lines) = self.lines.try_lock() {
            if let Some(line) = lines.get(number) {
                heard.extend_from_slice(&line.heard)?;
            }
        }
        Ok(heard)
    }

    /// How many bytes of a connection were read.
    pub(crate) fn read(&self, number: usize) -> usize {
        match self.lines.try_lock() {
            Some(lines) => lines.get(number).map_or(0, |line| line.read),
            None => 0,
        }
    }

    /// How often a connection was read.
    pub(crate) fn reads(&self, number: usize) -> usize {
        match self.lines.try_lock() {
            Some(lines) => lines.get(number).map_or(0, |line| line.reads),
            None => 0,
        }
    }

    // What is told of a connection that has a key, as it is.
    fn notice(&self, number: usize) -> Option<Notice> {
        let lines = self.lines.try_lock()?;
        let line = lines.get(number)?;
        line.key.map(|key| Notice {
            key,
            ends: line.ends(),
        })
    }

    fn note_key(&self, number: usize, key: usize) {
        if let Some(mut lines) = self.lines.try_lock() {
            if let Some(line) = lines.get_mut(number) {
                line.key = Some(key);
            }
        }
    }

    fn take_told(&self, alloc: Global) -> Vec<Notice> {
        match self.told.try_lock() {
            Some(mut told) => mem::replace(&mut *told, Vec::new(alloc)),
            None => Vec::new(alloc),
        }
    }
}

/// The stream of a connection in memory.
#[derive(Drop)]
pub(crate) struct Wire<'t> {
    wires: &'t Wires,
    number: usize,
}

impl Read for Wire<'_> {
    fn read(&mut self, into: &mut [u8]) -> io::Result<usize> {
        let Some(mut lines) = self.wires.lines.try_lock() else {
            return Err(ErrorKind::WouldBlock.into());
        };
        match lines.get_mut(self.number) {
            Some(line) => line.read(into),
            None => Ok(0),
        }
    }
}

impl Write for Wire<'_> {
    fn write(&mut self, piece: &[u8]) -> io::Result<usize> {
        let Some(mut lines) = self.wires.lines.try_lock() else {
            return Err(ErrorKind::WouldBlock.into());
        };
        match lines.get_mut(self.number) {
            Some(line) => line.write(piece),
            None => Err(ErrorKind::BrokenPipe.into()),
        }
    }

    fn flush(&mut self) -> io::Result<()> {
        Ok(())
    }
}

/// Tells of the connections that a test lets it tell of, and waits for nothing.
#[derive(Drop)]
pub(crate) struct Teller<'t> {
    alloc: Global,
    wires: &'t Wires,
    notices: Vec<Notice>,
    limit: Option<Duration>,
}

impl<'t> Teller<'t> {
    pub(crate) fn new(alloc: Global, wires: &'t Wires) -> Teller<'t> {
        Teller {
            alloc,
            wires,
            notices: Vec::new(alloc),
            limit: None,
        }
    }
}

impl<'t> Readiness for Teller<'t> {
    ghost use Rattle.std.specs.Duration.{as_nanos};
    ghost use Rattle.std.specs.Option.{option_map};

    ghost waited = { λ r. option_map as_nanos r.limit };

    type Stream = Wire<'t>;

    type Waker = Nobody;

    fn waker(&self) -> io::Result<Nobody> {
        Ok(Nobody)
    }

    fn register(&mut self, stream: &mut Wire<'t>, key: usize) -> bool {
        self.wires.note_key(stream.number, key);
        self.wires.tell(stream.number).is_ok()
    }

    fn wait(&mut self, limit: Option<Duration>) {
        self.limit = limit;
        self.notices = self.wires.take_told(self.alloc);
    }

    fn ready(&self) -> &[Notice] {
        &self.notices
    }
}

/// Nobody waits.
#[derive(Drop)]
pub(crate) struct Nobody;

impl Wake for Nobody {
    fn wake(&self) {}
}
