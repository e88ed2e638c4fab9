// Chunks in a row: where a run belongs, and that none is too long or too short.
ghost use Rattle.std.specs.Prelude.{◌≡◌, ◌≢◌, ◌+◌, ◌<◌, ◌≤◌, ◌^◌, length, vec_len, vec_capacity, IfOk, MatchOption};
ghost use Rattle.std.specs.List.{All, Contains, HoldsAt};
ghost use Rattle.run_alloc.specs.Order.{order_key};
ghost use Rattle.run_alloc.specs.Shelves.{runs_in, fence, Rises, IsLaid, IsEven, IsAmid, IsRich, IsBlank, Adds, IsFirstFrom, IsLastBelow};

use crate::chunk::{Chunk, FEW, FULL, ROOM, chunk_of, halve, join, place_of, pull, put};
use crate::order::{Order, Run};
use std::alloc::{AllocError, Global};

/// The runs of a chunk.
fn runs_at(chunks: &[Chunk], place: usize) -> &[Run]
    requires { place < length chunks.now }
    ensures { HoldsAt (λ chunk. result.now ≡ chunk.runs.items) chunks.now place }
{
    &chunks[place].runs
}

/// The first run in the chunks whose rank isn't below `rank`.
pub fn first_in(chunks: &[Chunk], order: Order, rank: u64) -> Option<Run>
    requires laid { IsLaid (order_key order) chunks.now (2 ^ 64) }
    requires starts { fence chunks.now 1 ≡ 0 }
    requires even { IsEven chunks.now }
    ensures { MatchOption result (All (λ run. order_key order run < rank) (runs_in chunks.now))
        (IsFirstFrom (order_key order) (runs_in chunks.now) rank) }
{
    let place = chunk_of(chunks, rank);
    let runs = runs_at(chunks, place);
    let within = place_of(runs, order, rank);
    if within < runs.len() {
        return Some(runs[within]);
    }
    if place + 1 == chunks.len() {
        return None;
    }
    let next = runs_at(chunks, place + 1);
    if next.is_empty() {
        return None;
    }
    Some(next[0])
}

/// The last run in the chunks whose rank is below `rank`.
pub fn last_in(chunks: &[Chunk], order: Order, rank: u64) -> Option<Run>
    requires laid { IsLaid (order_key order) chunks.now (2 ^ 64) }
    requires starts { fence chunks.now 1 ≡ 0 }
    requires even { IsEven chunks.now }
    ensures { MatchOption result (All (λ run. rank ≤ order_key order run) (runs_in chunks.now))
        (IsLastBelow (order_key order) (runs_in chunks.now) rank) }
{
    let place = chunk_of(chunks, rank);
    let runs = runs_at(chunks, place);
    let within = place_of(runs, order, rank);
    if within > 0 {
        return Some(runs[within - 1]);
    }
    if place == 0 {
        return None;
    }
    let last = runs_at(chunks, place - 1);
    Some(last[last.len() - 1])
}

/// So many empty vectors, each with room for a chunk.
pub fn blanks(alloc: Global, count: usize) -> Result<Vec<Vec<Run>>, AllocError>
    ensures blank { IfOk result (λ blanks. All IsBlank blanks.items) }
    ensures count { IfOk result (λ blanks. vec_len blanks ≡ count) }
{
    let mut blanks = Vec::new(alloc);
    'blanks: for _ in 0..count {
        blanks.push(Vec::with_capacity(alloc, ROOM)?)?;
    }
    Ok(blanks)
}

/// Puts a run into its chunk.
pub fn put_in(chunks: &mut Vec<Chunk>, order: Order, run: Run) -> usize
    requires laid { IsLaid (order_key order) chunks.old.items (2 ^ 64) }
    requires starts { fence chunks.old.items 1 ≡ 0 }
    requires even { IsEven chunks.old.items }
    requires fresh { All (λ other. order_key order other ≢ order_key order run) (runs_in chunks.old.items) }
    ensures adds { Adds (runs_in chunks.old.items) (runs_in chunks.new.items) run }
    ensures laid { IsLaid (order_key order) chunks.new.items (2 ^ 64) }
    ensures starts { fence chunks.new.items 1 ≡ 0 }
    ensures amid { IsAmid chunks.new.items result }
    ensures len { vec_len chunks.new ≡ vec_len chunks.old }
    ensures capacity { vec_capacity chunks.new ≡ vec_capacity chunks.old }
{
    let place = chunk_of(chunks, order.rank(run));
    put(&mut chunks[place].runs, order, run);
    place
}

/// Takes a run out of its chunk.
pub fn pull_from(chunks: &mut Vec<Chunk>, order: Order, run: Run) -> usize
    requires laid { IsLaid (order_key order) chunks.old.items (2 ^ 64) }
    requires starts { fence chunks.old.items 1 ≡ 0 }
    requires even { IsEven chunks.old.items }
    requires kept { Contains (runs_in chunks.old.items) run }
    ensures adds { Adds (runs_in chunks.new.items) (runs_in chunks.old.items) run }
    ensures laid { IsLaid (order_key order) chunks.new.items (2 ^ 64) }
    ensures starts { fence chunks.new.items 1 ≡ 0 }
    ensures amid { IsAmid chunks.new.items result }
    ensures len { vec_len chunks.new ≡ vec_len chunks.old }
    ensures capacity { vec_capacity chunks.new ≡ vec_capacity chunks.old }
{
    let place = chunk_of(chunks, order.rank(run));
    pull(&mut chunks[place].runs, order, run);
    place
}

/// Joins the chunk with the next where it has few runs, and halves it where it has many.
pub fn settle(chunks: &mut Vec<Chunk>, stock: &mut Vec<Vec<Run>>, order: Order, place: usize)
    requires amid { IsAmid chunks.old.items place }
    requires laid { IsLaid (order_key order) chunks.old.items (2 ^ 64) }
    requires blank { All IsBlank stock.old.items }
    requires stocked { 0 < vec_len stock.old }
    requires fits { vec_len chunks.old + vec_len stock.old ≤ vec_capacity chunks.old }
    requires stock_fits { vec_len chunks.old + vec_len stock.old ≤ vec_capacity stock.old }
    ensures runs { runs_in chunks.new.items ≡ runs_in chunks.old.items }
    ensures laid { IsLaid (order_key order) chunks.new.items (2 ^ 64) }
    ensures starts { fence chunks.new.items 1 ≡ fence chunks.old.items 1 }
    ensures even { IsEven chunks.new.items }
    ensures blank { All IsBlank stock.new.items }
    ensures count { vec_len chunks.new + vec_len stock.new ≡ vec_len chunks.old + vec_len stock.old }
    ensures capacity { vec_capacity chunks.new ≡ vec_capacity chunks.old }
    ensures stock_capacity { vec_capacity stock.old ≤ vec_capacity stock.new }
{
    join_few(chunks, stock, order, place);
    halve_full(chunks, stock, order, place);
}

fn join_few(chunks: &mut Vec<Chunk>, stock: &mut Vec<Vec<Run>>, order: Order, place: usize)
    requires amid { IsAmid chunks.old.items place }
    requires laid { IsLaid (order_key order) chunks.old.items (2 ^ 64) }
    requires blank { All IsBlank stock.old.items }
    requires stock_fits { vec_len chunks.old + vec_len stock.old ≤ vec_capacity stock.old }
    ensures runs { runs_in chunks.new.items ≡ runs_in chunks.old.items }
    ensures laid { IsLaid (order_key order) chunks.new.items (2 ^ 64) }
    ensures starts { fence chunks.new.items 1 ≡ fence chunks.old.items 1 }
    ensures rich { IsRich chunks.new.items place }
    ensures blank { All IsBlank stock.new.items }
    ensures count { vec_len chunks.new + vec_len stock.new ≡ vec_len chunks.old + vec_len stock.old }
    ensures stocked { vec_len stock.old ≤ vec_len stock.new }
    ensures capacity { vec_capacity chunks.new ≡ vec_capacity chunks.old }
    ensures stock_capacity { vec_capacity stock.old ≤ vec_capacity stock.new }
{
    if place + 1 < chunks.len() && chunks[place].runs.len() < FEW {
        let next = chunks.remove(place + 1);
        let runs = join(&mut chunks[place], next);
        match stock.push(runs) {
            Ok(()) => {}
            Err(_) => unreachable!(),
        }
    }
}

fn halve_full(chunks: &mut Vec<Chunk>, stock: &mut Vec<Vec<Run>>, order: Order, place: usize)
    requires rich { IsRich chunks.old.items place }
    requires laid { IsLaid (order_key order) chunks.old.items (2 ^ 64) }
    requires blank { All IsBlank stock.old.items }
    requires stocked { 0 < vec_len stock.old }
    requires fits { vec_len chunks.old + vec_len stock.old ≤ vec_capacity chunks.old }
    ensures runs { runs_in chunks.new.items ≡ runs_in chunks.old.items }
    ensures laid { IsLaid (order_key order) chunks.new.items (2 ^ 64) }
    ensures starts { fence chunks.new.items 1 ≡ fence chunks.old.items 1 }
    ensures even { IsEven chunks.new.items }
    ensures blank { All IsBlank stock.new.items }
    ensures count { vec_len chunks.new + vec_len stock.new ≡ vec_len chunks.old + vec_len stock.old }
    ensures capacity { vec_capacity chunks.new ≡ vec_capacity chunks.old }
    ensures stock_capacity { vec_capacity stock.old ≤ vec_capacity stock.new }
{
    if chunks[place].runs.len() < FULL {
        return;
    }
    let Some(empty) = stock.pop() else {
        unreachable!()
    };
    let upper = halve(&mut chunks[place], order, empty);
    match chunks.insert(place + 1, upper) {
        Ok(()) => {}
        Err(_) => unreachable!(),
    }
}
