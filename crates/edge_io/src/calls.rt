use crate::fault::Failed;
use std::alloc::{AllocError, Global};
use std::marker::Model;

/// The calls of an object in memory, numbered from 1, and the numbers of those that fail.
#[derive(Drop)]
pub(crate) struct Calls {
    failing: Vec<u64>,
    made: u64,
    faults: u64,
}

impl Model for Calls {
    ghost use Rattle.edge_io.specs.Calls.{CallsMade};

    ghost Value = { CallsMade };

    ghost view = { λ c. record { failing = c.failing.items; made = c.made; faults = c.faults } };
}

impl Calls {
    ghost use Rattle.std.specs.Prelude.{◌≡◌, ◌≤◌, IfOk, OnErr, is_err};
    ghost use Rattle.edge_io.specs.Calls.{after_call, fails_next};
    ghost use Rattle.edge_io.specs.Faults.{Rose};

    /// No call was made yet.
    pub(crate) fn new(alloc: Global, failing: &[u64]) -> Result<Calls, AllocError>
        ensures { IfOk result (λ c. c ≡ record { failing = failing.now; made = 0; faults = 0 }) }
    {
        Ok(Calls {
            failing: Vec::from_slice(alloc, failing)?,
            made: 0,
            faults: 0,
        })
    }

    /// Counts the next call, and a fault where it is one that fails.
    pub(crate) fn count_next(&mut self) -> Result<(), Failed>
        ensures calls { self.new ≡ after_call self.old }
        ensures fails { is_err result ≡ fails_next self.old }
        ensures later { self.old.faults ≤ self.new.faults }
        ensures failed { OnErr result (Rose self.old.faults self.new.faults) }
    {
        self.made = self.made.saturating_add(1);
        if self.failing.contains(&self.made) {
            self.faults = self.faults.saturating_add(1);
            return Err(Failed);
        }
        Ok(())
    }
}
