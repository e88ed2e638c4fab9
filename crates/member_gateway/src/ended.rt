use crate::command::{COMMANDS, Command};
use crate::outcome::{OUTCOMES, Outcome};

/// How many calls of each command have ended in each way.
#[derive(Clone, Copy)]
pub(crate) struct EndedCalls {
    counts: [[u64; OUTCOMES]; COMMANDS],
}

impl EndedCalls {
    /// None has ended.
    pub(crate) fn new() -> EndedCalls {
        EndedCalls {
            counts: [[0; OUTCOMES]; COMMANDS],
        }
    }

    /// A call has ended.
    pub(crate) fn note(&mut self, command: Command, outcome: Outcome) {
        if let Some(counts) = self.counts.get_mut(command.place()) {
            if let Some(count) = counts.get_mut(outcome.place()) {
                *count = count.saturating_add(1);
            }
        }
    }

    /// How many calls of a command have ended so.
    pub(crate) fn count(&self, command: Command, outcome: Outcome) -> u64 {
        self.counts
            .get(command.place())
            .and_then(|counts| counts.get(outcome.place()))
            .copied()
            .unwrap_or(0)
    }
}
