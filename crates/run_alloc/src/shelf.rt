// A set of runs in one order, which is searched by halves and changed in one chunk.
ghost use Rattle.std.specs.Prelude.{◌≡◌, ◌≢◌, ◌+◌, ◌<◌, ◌≤◌, ◌^◌, [], length, max, IfOk, IsOk, OnOk, OnErr, MatchOption};
ghost use Rattle.std.specs.List.{All, Contains};
ghost use Rattle.run_alloc.specs.Order.{order_key};
ghost use Rattle.run_alloc.specs.Shelves.{Rises, Adds, IsFirstFrom, IsLastBelow};

use crate::chunk::{Chunk, FEW, ROOM};
use crate::chunks::{blanks, first_in, last_in, pull_from, put_in, settle};
use crate::order::{Order, Run};
use std::alloc::{AllocError, Global};
use std::marker::Model;

/// Runs in one order, and room for more.
#[derive(Debug, Drop)]
pub struct Shelf {
    order: Order,
    chunks: Vec<Chunk>,
    stock: Vec<Vec<Run>>,
    spare: usize,
}

impl Model for Shelf {
    ghost use Rattle.run_alloc.specs.Shelves.{runs_in};
    ghost use Rattle.run_alloc.specs.Shelf.{Shelved, IsShelf};

    ghost Value = { Shelved };

    ghost view = { λ s. record { order = s.order; runs = runs_in s.chunks.items; spare = s.spare } };

    ghost invariant = { λ s. IsShelf s.order s.chunks s.stock s.spare };
}

impl Shelf {
    /// No runs, and no room for any.
    pub fn new(alloc: Global, order: Order) -> Result<Self, AllocError>
        ensures order { IfOk result (λ shelf. shelf.order ≡ order) }
        ensures runs { IfOk result (λ shelf. shelf.runs ≡ []) }
        ensures spare { IfOk result (λ shelf. shelf.spare ≡ 0) }
    {
        let mut chunks = Vec::with_capacity(alloc, 2)?;
        let runs = Vec::with_capacity(alloc, ROOM)?;
        chunks.push(Chunk { low: 0, runs })?;
        let mut stock = Vec::with_capacity(alloc, 2)?;
        stock.push(Vec::with_capacity(alloc, ROOM)?)?;
        Ok(Self {
            order,
            chunks,
            stock,
            spare: 0,
        })
    }

    /// Makes room for `n` more runs, or up to 127 above that.
    pub fn reserve(&mut self, n: usize) -> Result<(), AllocError>
        requires few { length self.old.runs + n + 127 < 2 ^ 64 }
        ensures order { self.new.order ≡ self.old.order }
        ensures runs { self.new.runs ≡ self.old.runs }
        ensures ok { OnOk result (max self.old.spare n ≤ self.new.spare) }
        ensures most { self.new.spare ≤ max self.old.spare (n + 127) }
        ensures err { OnErr result (self.new.spare ≡ self.old.spare) }
        ensures succeeds { n ≤ self.old.spare → IsOk result }
    {
        if n <= self.spare {
            return Ok(());
        }
        let more = (n - self.spare).div_ceil(FEW);
        let mut blanks = blanks(*self.stock.allocator(), more)?;
        self.chunks.reserve(self.stock.len() + more)?;
        self.stock.reserve(self.chunks.len() + more)?;
        match self.stock.append(&mut blanks) {
            Ok(()) => {}
            Err(_) => unreachable!(),
        }
        self.spare += more * FEW;
        Ok(())
    }

    /// Gives back the room for more than `spare` runs, but for up to 127.
    pub fn shrink(&mut self, spare: usize)
        ensures order { self.new.order ≡ self.old.order }
        ensures runs { self.new.runs ≡ self.old.runs }
        ensures kept { spare ≤ self.old.spare → spare ≤ self.new.spare }
        ensures most { self.new.spare ≤ spare + 127 }
    {
        let blanks = self.spare.saturating_sub(spare) / FEW;
        self.stock.truncate(self.stock.len() - blanks);
        self.spare -= blanks * FEW;
    }

    /// The first run whose rank isn't below `rank`.
    pub fn first_from(&self, rank: u64) -> Option<Run>
        ensures first { MatchOption result (All (λ run. order_key self.now.order run < rank) self.now.runs)
            (IsFirstFrom (order_key self.now.order) self.now.runs rank) }
        ensures rises { Rises (order_key self.now.order) 0 self.now.runs (2 ^ 64) }
    {
        first_in(&self.chunks, self.order, rank)
    }

    /// The last run whose rank is below `rank`.
    pub fn last_below(&self, rank: u64) -> Option<Run>
        ensures last { MatchOption result (All (λ run. rank ≤ order_key self.now.order run) self.now.runs)
            (IsLastBelow (order_key self.now.order) self.now.runs rank) }
    {
        last_in(&self.chunks, self.order, rank)
    }

    /// Adds a run. It takes no memory.
    pub fn insert(&mut self, run: Run)
        requires fresh { All (λ other. order_key self.old.order other ≢ order_key self.old.order run) self.old.runs }
        requires room { 0 < self.old.spare }
        ensures order { self.new.order ≡ self.old.order }
        ensures adds { Adds self.old.runs self.new.runs run }
        ensures rises { Rises (order_key self.new.order) 0 self.new.runs (2 ^ 64) }
        ensures spare { self.new.spare + 1 ≡ self.old.spare }
    {
        let place = put_in(&mut self.chunks, self.order, run);
        settle(&mut self.chunks, &mut self.stock, self.order, place);
        self.spare -= 1;
    }

    /// Takes a run out.
    pub fn remove(&mut self, run: Run)
        requires kept { Contains self.old.runs run }
        ensures order { self.new.order ≡ self.old.order }
        ensures adds { Adds self.new.runs self.old.runs run }
        ensures rises { Rises (order_key self.old.order) 0 self.old.runs (2 ^ 64) }
        ensures rises_still { Rises (order_key self.new.order) 0 self.new.runs (2 ^ 64) }
        ensures spare { self.new.spare ≡ self.old.spare + 1 }
    {
        let place = pull_from(&mut self.chunks, self.order, run);
        settle(&mut self.chunks, &mut self.stock, self.order, place);
        self.spare += 1;
    }
}
