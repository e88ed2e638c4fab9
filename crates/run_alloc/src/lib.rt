//! Free runs of addresses: an allocator that gives out the shortest free run that serves a length.
//! Contracts see the set of free addresses and the room for later calls, never the runs that are
//! kept. What the addresses hold is left to the caller.
#![tactic(auto)]

ghost use Rattle.std.specs.Prelude.{◌≡◌, ℕ, ◌+◌, ◌-◌, ◌<◌, ◌≤◌, ◌^◌, ◌||◌, ◌&&◌, Some, codes, max, nat_lt, not, false, IfOk, IsOk, OnOk, OnErr, MatchOption, MatchResult};
ghost use Rattle.run_alloc.specs.Free.{is_free_address, in_run_at, AllFree, NoneFree, IsPlace, NoPlace};

use cuts::carve;
use joins::join;
use order::Run;
use runs::Runs;
use std::alloc::{AllocError, Global};
use std::fmt;
use std::marker::Model;

mod chunk;
mod chunks;
mod cuts;
mod joins;
mod order;
mod runs;
mod shelf;

/// No free run has the length that was asked for.
#[derive(Clone, Copy, Debug, PartialEq, Eq)]
pub struct NoRun;

impl fmt::Display for NoRun {
    ghost output = { λ _. Some (codes "no free run is long enough") };

    fn fmt<W: fmt::Write>(&self, f: &mut fmt::Formatter<W>) -> fmt::Result {
        f.write_str("no free run is long enough")
    }
}

/// The free addresses of a space, which begins with all of them free.
#[derive(Debug, Drop)]
pub struct FreeRuns {
    kept: Runs,
    size: u32,
}

impl Model for FreeRuns {
    ghost use Rattle.std.specs.Prelude.{◌+◌};
    ghost use Rattle.run_alloc.specs.Free.{AddressSpace, space_code};

    ghost Value = { AddressSpace };

    ghost coded = { space_code };

    ghost use Rattle.run_alloc.specs.Runs.{free_set, IsSpread};

    ghost view = { λ r. record { size = r.size; free = free_set r.kept.runs; spare = r.kept.spare } };

    ghost invariant = { λ r. IsSpread 0 r.kept.runs (r.size + 1) };
}

impl FreeRuns {
    /// A space of `size` addresses.
    pub fn new(alloc: Global, size: u32) -> Result<Self, AllocError>
        ensures size { IfOk result (λ space. space.size ≡ size) }
        ensures free { IfOk result (λ space. (a : ℕ) → is_free_address space a ≡ nat_lt a size) }
        ensures most { IfOk result (λ space. space.spare ≤ 1) }
    {
        let mut kept = Runs::new(alloc)?;
        kept.reserve(1)?;
        if size > 0 {
            kept.add(Run { at: 0, len: size });
        }
        Ok(Self { kept, size })
    }

    /// Makes room for `n` calls of `give` or `take_at`.
    pub fn reserve(&mut self, n: usize) -> Result<(), AllocError>
        requires few { n + 2 ^ 33 ≤ 2 ^ 64 }
        ensures size { self.new.size ≡ self.old.size }
        ensures free { self.new.free ≡ self.old.free }
        ensures spare { self.old.spare ≤ self.new.spare }
        ensures ok { OnOk result (n ≤ self.new.spare) }
        ensures most { self.new.spare ≤ max self.old.spare n }
        ensures err { OnErr result (self.new.spare ≡ self.old.spare) }
        ensures succeeds { n ≤ self.old.spare → IsOk result }
    {
        self.kept.reserve(n)
    }

    /// The address that `take` would give.
    pub fn fits(&self, len: u32) -> Option<u32>
        requires { 0 < len }
        ensures { MatchOption result (NoPlace self.now.size (is_free_address self.now) len)
            (IsPlace self.now.size (is_free_address self.now) len) }
    {
        let run = self.kept.shortest(len)?;
        Some(run.at)
    }

    /// The end of the free run that an address is in, or the address itself where it isn't free.
    pub fn free_to(&self, at: u32) -> u32
        ensures reaches { at ≤ result }
        ensures free { AllFree (is_free_address self.now) at (result - at) }
        ensures ends { is_free_address self.now result ≡ false }
    {
        let Some(run) = self.kept.last_to(at) else {
            return at;
        };
        let end = run.at + run.len;
        if at < end { end } else { at }
    }

    /// Takes the first `len` addresses of the shortest free run that has as many, the lowest on a
    /// tie, and gives the first of them.
    pub fn take(&mut self, len: u32) -> Result<u32, NoRun>
        requires { 0 < len }
        ensures place { MatchResult result (IsPlace self.old.size (is_free_address self.old) len)
            (λ _. NoPlace self.old.size (is_free_address self.old) len) }
        ensures taken { IfOk result (λ at. (a : ℕ) → is_free_address self.new a ≡ (is_free_address self.old a && not (in_run_at at len a))) }
        ensures none { OnErr result (self.new.free ≡ self.old.free) }
        ensures size { self.new.size ≡ self.old.size }
        ensures spare { self.old.spare ≤ self.new.spare }
        ensures most { self.new.spare ≤ self.old.spare + 1 }
    {
        let Some(run) = self.kept.shortest(len) else {
            return Err(NoRun);
        };
        carve(&mut self.kept, run, run.at, len);
        Ok(run.at)
    }

    /// Takes the run of `len` addresses from `at` on. A run of no addresses changes nothing.
    pub fn take_at(&mut self, at: u32, len: u32)
        requires free { AllFree (is_free_address self.old) at len }
        requires room { 0 < len → 0 < self.old.spare }
        ensures taken { (a : ℕ) → is_free_address self.new a ≡ (is_free_address self.old a && not (in_run_at at len a)) }
        ensures size { self.new.size ≡ self.old.size }
        ensures spare { self.old.spare ≤ self.new.spare + 1 }
        ensures most { self.new.spare ≤ self.old.spare + 1 }
    {
        if len > 0 {
            match self.kept.last_to(at) {
                Some(run) => carve(&mut self.kept, run, at, len),
                None => unreachable!(),
            }
        }
    }

    /// Gives back the run of `len` addresses from `at` on. A run of no addresses changes nothing.
    pub fn give(&mut self, at: u32, len: u32)
        requires inside { at + len ≤ self.old.size }
        requires taken { NoneFree (is_free_address self.old) at len }
        requires room { 0 < len → 0 < self.old.spare }
        ensures given { (a : ℕ) → is_free_address self.new a ≡ (is_free_address self.old a || in_run_at at len a) }
        ensures size { self.new.size ≡ self.old.size }
        ensures spare { self.old.spare ≤ self.new.spare + 1 }
        ensures most { self.new.spare ≤ self.old.spare + 1 }
    {
        if len > 0 {
            join(&mut self.kept, Run { at, len });
        }
    }
}
