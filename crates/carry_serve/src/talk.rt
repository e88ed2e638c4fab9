use crate::wire::{Came, Wire};
use memchr::memchr;
use std::alloc::{AllocError, Global};

/// A connection to a member's control address.
#[derive(Drop)]
pub(crate) struct Talk {
    wire: Option<Wire>,
}

impl Talk {
    /// This connection, where there could be one.
    pub(crate) fn new(wire: Option<Wire>) -> Talk {
        Talk { wire }
    }

    /// Whether it hasn't ended.
    pub(crate) fn is_open(&self) -> bool {
        self.wire.is_some()
    }

    /// Says a line. Says whether it could.
    pub(crate) fn say(&mut self, line: &str) -> Result<bool, AllocError> {
        let Some(wire) = &mut self.wire else {
            return Ok(false);
        };
        wire.say(line.as_bytes())?;
        let _ = wire.write_out();
        Ok(true)
    }

    /// Writes and reads, as far as neither waits. Says whether more may have come.
    pub(crate) fn go_on(&mut self) -> bool {
        let Some(wire) = &mut self.wire else {
            return false;
        };
        match wire.go_on() {
            Came::Ended if !has_line(wire.text()) => {
                self.wire = None;
                false
            }
            Came::More => true,
            _ => false,
        }
    }

    /// Whether a whole line came.
    pub(crate) fn has_line(&self) -> bool {
        match &self.wire {
            Some(wire) => has_line(wire.text()),
            None => false,
        }
    }

    /// The next line that came, without its end.
    pub(crate) fn next_line(&mut self, alloc: Global) -> Result<Option<Vec<u8>>, AllocError> {
        let Some(wire) = &mut self.wire else {
            return Ok(None);
        };
        let text = wire.text();
        let Some(end) = memchr(b'\n', text) else {
            return Ok(None);
        };
        let line = Vec::from_slice(alloc, &text[..end])?;
        wire.take(end.saturating_add(1));
        Ok(Some(line))
    }
}

fn has_line(text: &[u8]) -> bool {
    memchr(b'\n', text).is_some()
}
