ghost use Rattle.std.specs.Prelude.{◌≡◌, ◌≤◌, length, IfOk};

use ready_worker::Notice;
use std::alloc::{AllocError, Global};
use std::io;
use std::io::ErrorKind;

/// Whether a client is still there.
#[derive(Clone, Copy, PartialEq, Eq)]
pub(crate) enum Presence {
    Stays,
    /// It says nothing more, and hears.
    Ends,
    /// It takes nothing, and may say more.
    Stalls,
    /// It neither says nor hears anything more.
    Breaks,
}

/// The connection of a client in memory: all that it says is there to be read, and all that is written is heard.
#[derive(Drop)]
pub(crate) struct Line {
    said: Vec<u8>,
    read: usize,
    presence: Presence,
    heard: Vec<u8>,
    key: Option<usize>,
    is_ready: bool,
}

impl Line {
    /// A connection of which nothing came.
    pub(crate) fn new(alloc: Global) -> Line {
        Line {
            said: Vec::new(alloc),
            read: 0,
            presence: Presence::Stays,
            heard: Vec::new(alloc),
            key: None,
            is_ready: false,
        }
    }

    /// Its client says this.
    pub(crate) fn say(&mut self, bytes: &[u8]) -> Result<(), AllocError> {
        self.is_ready = true;
        self.said.extend_from_slice(bytes)
    }

    /// Its client goes away.
    pub(crate) fn leave(&mut self, presence: Presence) {
        self.is_ready = true;
        self.presence = presence;
    }

    /// What its client heard from a place on.
    pub(crate) fn heard(&self, from: usize) -> &[u8] {
        self.heard.get(from..).unwrap_or_default()
    }

    /// It is told as ready under this key.
    pub(crate) fn watch(&mut self, key: usize) {
        self.is_ready = true;
        self.key = Some(key);
    }

    /// Tells that it is ready, and no more until something comes.
    pub(crate) fn tell(&mut self, notices: &mut Vec<Notice>) {
        if let (true, Some(key)) = (self.is_ready, self.key) {
            let ends = matches!(self.presence, Presence::Ends | Presence::Breaks);
            self.is_ready = notices.push(Notice { key, ends }).is_err();
        }
    }

    pub(crate) fn read(&mut self, into: &mut [u8]) -> io::Result<usize>
        ensures same { length into.new ≡ length into.old }
        ensures bound { IfOk result (λ n. n ≤ length into.new) }
    {
        let rest = self.said.get(self.read..).unwrap_or_default();
        let most = rest.len().min(into.len());
        if most == 0 || self.presence == Presence::Breaks {
            return match self.presence {
                Presence::Stays | Presence::Stalls => Err(ErrorKind::WouldBlock.into()),
                Presence::Ends => Ok(0),
                Presence::Breaks => Err(ErrorKind::ConnectionReset.into()),
            };
        }
        into[..most].copy_from_slice(&rest[..most]);
        self.read = self.read.saturating_add(most);
        Ok(most)
    }

    pub(crate) fn write(&mut self, piece: &[u8]) -> io::Result<usize>
        ensures bound { IfOk result (λ n. n ≤ length piece.now) }
    {
        match self.presence {
            Presence::Stays | Presence::Ends => {}
            Presence::Stalls => return Err(ErrorKind::WouldBlock.into()),
            Presence::Breaks => return Err(ErrorKind::BrokenPipe.into()),
        }
        match self.heard.extend_from_slice(piece) {
            Ok(()) => Ok(piece.len()),
            Err(AllocError) => Err(ErrorKind::OutOfMemory.into()),
        }
    }
}
