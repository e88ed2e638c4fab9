// Runs with gaps between them, searched by their addresses and by their lengths.
ghost use Rattle.std.specs.Prelude.{◌≡◌, ◌≢◌, ◌+◌, ◌<◌, ◌≤◌, ◌^◌, [], max, MatchOption, IfOk, IsOk, OnOk, OnErr};
ghost use Rattle.std.specs.List.{All, Contains};
ghost use Rattle.run_alloc.specs.Runs.{IsSpread, IsApart, IsShortest, IsCut, IsJoined};
ghost use Rattle.run_alloc.specs.Shelves.{Adds, IsLastBelow};

use crate::order::{Order, Run};
use crate::shelf::Shelf;
use std::alloc::{AllocError, Global};
use std::marker::Model;

/// Runs, and room for more.
#[derive(Debug, Drop)]
pub struct Runs {
    by_address: Shelf,
    by_length: Shelf,
    spare: usize,
}

impl Model for Runs {
    ghost use Rattle.run_alloc.specs.Kept.{IsPaired, KeptRuns};

    ghost Value = { KeptRuns };

    ghost view = { λ r. record { runs = r.by_address.runs; spare = r.spare } };

    ghost invariant = { λ r. IsPaired r.by_address r.by_length r.spare };
}

impl Runs {
    /// No runs, and no room for any.
    pub fn new(alloc: Global) -> Result<Self, AllocError>
        ensures runs { IfOk result (λ kept. kept.runs ≡ []) }
        ensures spare { IfOk result (λ kept. kept.spare ≡ 0) }
    {
        let by_address = Shelf::new(alloc, Order::Address)?;
        let by_length = Shelf::new(alloc, Order::Length)?;
        Ok(Self {
            by_address,
            by_length,
            spare: 0,
        })
    }

    /// Makes room for `n` more runs.
    pub fn reserve(&mut self, n: usize) -> Result<(), AllocError>
        requires few { n + 2 ^ 33 ≤ 2 ^ 64 }
        ensures runs { self.new.runs ≡ self.old.runs }
        ensures ok { OnOk result (self.new.spare ≡ max self.old.spare n) }
        ensures err { OnErr result (self.new.spare ≡ self.old.spare) }
        ensures succeeds { n ≤ self.old.spare → IsOk result }
    {
        self.by_address.reserve(n)?;
        if let Err(fault) = self.by_length.reserve(n) {
            self.by_address.shrink(self.spare);
            return Err(fault);
        }
        self.spare = self.spare.max(n);
        Ok(())
    }

    /// The shortest run that has `len` addresses, the lowest on a tie.
    pub fn shortest(&self, len: u32) -> Option<Run>
        ensures { MatchOption result (All (λ run. run.len < len) self.now.runs) (IsShortest self.now.runs len) }
    {
        self.by_length.first_from(u64::from(len) * (1 << 32))
    }

    /// The last run that begins at or below `at`.
    pub fn last_to(&self, at: u32) -> Option<Run>
        ensures last { MatchOption result (All (λ run. at + 1 ≤ run.at) self.now.runs) (IsLastBelow (λ run. run.at) self.now.runs (at + 1)) }
        ensures spread { IsSpread 0 self.now.runs (2 ^ 32) }
    {
        self.by_address.last_below(u64::from(at) + 1)
    }

    /// The run that begins at `at`.
    pub fn from(&self, at: u32) -> Option<Run>
        ensures { MatchOption result (All (λ run. run.at ≢ at) self.now.runs) (λ run. Contains self.now.runs run × (run.at ≡ at)) }
    {
        let last = self.last_to(at)?;
        if last.at == at { Some(last) } else { None }
    }

    /// The run that ends at `at`.
    pub fn to(&self, at: u32) -> Option<Run>
        ensures { MatchOption result (All (λ run. run.at + run.len ≢ at) self.now.runs) (λ run. Contains self.now.runs run × (run.at + run.len ≡ at)) }
    {
        let last = self.last_to(at)?;
        if last.at + last.len == at {
            Some(last)
        } else {
            None
        }
    }

    /// Adds a run that touches none. It takes no memory.
    pub fn add(&mut self, run: Run)
        requires apart { All (IsApart run) self.old.runs }
        requires some { 0 < run.len }
        requires inside { run.at + run.len < 2 ^ 32 }
        requires room { 0 < self.old.spare }
        ensures adds { Adds self.old.runs self.new.runs run }
        ensures joined { IsJoined self.old.runs self.new.runs run.at run.len }
        ensures spare { self.new.spare + 1 ≡ self.old.spare }
    {
        self.by_address.insert(run);
        self.by_length.insert(run);
        self.spare -= 1;
    }

    /// Takes a run out.
    pub fn remove(&mut self, run: Run)
        requires kept { Contains self.old.runs run }
        ensures adds { Adds self.new.runs self.old.runs run }
        ensures cut { IsCut self.old.runs self.new.runs run.at run.len }
        ensures apart { All (IsApart run) self.new.runs }
        ensures spare { self.new.spare ≡ self.old.spare + 1 }
    {
        self.by_address.remove(run);
        self.by_length.remove(run);
        self.spare += 1;
    }
}
