use crate::losses::key::KEYS;
use std::alloc::{AllocError, Global};

const PROCESSES: [&str; 5] = ["d0", "d1", "d2", "p0", "p1"];

/// How many messages are kept of a process: it never has 9 on its links.
const KEPT: [u32; 3] = [0, 1, 9];

/// A process that is lost before an event, counted from 0, and how many of its messages are kept.
#[derive(Clone, Copy)]
pub(crate) struct Loss {
    pub(crate) before: usize,
    pub(crate) process: &'static str,
    pub(crate) kept: u32,
}

/// A loss of each process before each event, with each number of messages kept.
pub(crate) fn losses_of(alloc: Global, events: &str) -> Result<Vec<Loss>, AllocError> {
    let mut losses = Vec::new(alloc);
    'events: for (before, _) in events.lines().enumerate() {
        'processes: for process in PROCESSES {
            'kept: for kept in KEPT {
                losses.push(Loss {
                    before,
                    process,
                    kept,
                })?;
            }
        }
    }
    Ok(losses)
}

impl Loss {
    /// The script: the events and the loss, what the parity processes hold, and each key is read.
    pub(crate) fn script(&self, alloc: Global, events: &str) -> Result<String, AllocError> {
        let mut script = String::from_str(alloc, "group 3 2 1 16\n")?;
        'events: for (at, event) in events.lines().enumerate() {
            let line = self.line(alloc, at, event)?;
            script.push_str(&line)?;
        }
        script.push_str("show p0 0 1\nshow p1 0 1\ndrain\n")?;
        'keys: for key in KEYS {
            script.push_str(&key.reads(alloc, self.process)?)?;
        }
        script.push_str("places\n")?;
        Ok(script)
    }

    // The line of an event, and in front of it that of the loss where it comes there.
    fn line(&self, alloc: Global, at: usize, event: &str) -> Result<String, AllocError> {
        let (process, kept) = (self.process, self.kept);
        if at == self.before {
            format!(in alloc; "fail {process} {kept}\n{event}\n")
        } else {
            format!(in alloc; "{event}\n")
        }
    }
}
