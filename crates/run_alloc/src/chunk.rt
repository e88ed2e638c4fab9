// Runs in order, and the chunks of bounded length that they are cut into.
ghost use Rattle.std.specs.Prelude.{◌≡◌, ℕ, ◌+◌, ◌*◌, ◌<◌, ◌≤◌, ◌^◌, [], ◌∷◌, ◌++◌, length, vec_len, vec_capacity, IfSome, IfNone};
ghost use Rattle.std.specs.List.{All, Contains};
ghost use Rattle.std.specs.List.Sorted.{IsNonDecreasingBy};
ghost use Rattle.run_alloc.specs.Order.{order_key};
ghost use Rattle.run_alloc.specs.Shelves.{fence, Rises, IsPlaceOf, IsChunkOf, IsBlank, IsHalved, Puts, Adds};

use crate::order::{Order, Run};

/// A chunk with fewer runs is joined with the one behind it.
pub const FEW: usize = 128;
/// A chunk with so many runs is halved.
pub const FULL: usize = 512;
/// What a chunk has room for: a full one, and one with few.
pub const ROOM: usize = 640;

/// Runs with ranks from `low` on, in their order.
#[derive(Debug, Drop)]
pub struct Chunk {
    pub low: u64,
    pub runs: Vec<Run>,
}

/// How many runs have a rank below `rank`.
pub fn place_of(runs: &[Run], order: Order, rank: u64) -> usize
    requires { IsNonDecreasingBy (order_key order) runs.now }
    ensures { IsPlaceOf (order_key order) runs.now rank result }
{
    runs.partition_point(|run| order.rank(*run) < rank)
}

/// The chunk that a run of the rank belongs to.
pub fn chunk_of(chunks: &[Chunk], rank: u64) -> usize
    requires rises { IsNonDecreasingBy (λ chunk. chunk.low) chunks.now }
    requires starts { fence chunks.now 1 ≡ 0 }
    ensures { IsChunkOf chunks.now rank result }
{
    chunks.partition_point(|chunk| chunk.low <= rank) - 1
}

/// Puts a run into its place.
pub fn put(runs: &mut Vec<Run>, order: Order, run: Run)
    requires rises { IsNonDecreasingBy (order_key order) runs.old.items }
    requires room { length runs.old.items < vec_capacity runs.old }
    ensures puts { Puts (order_key order) runs.old.items runs.new.items run }
    ensures capacity { vec_capacity runs.new ≡ vec_capacity runs.old }
{
    let place = place_of(runs, order, order.rank(run));
    match runs.insert(place, run) {
        Ok(()) => {}
        Err(_) => unreachable!(),
    }
}

/// Takes a run out.
pub fn pull(runs: &mut Vec<Run>, order: Order, run: Run)
    requires rises { Rises (order_key order) 0 runs.old.items (2 ^ 64) }
    requires kept { Contains runs.old.items run }
    ensures pulls { Adds runs.new.items runs.old.items run }
    ensures capacity { vec_capacity runs.new ≡ vec_capacity runs.old }
{
    let place = place_of(runs, order, order.rank(run));
    runs.remove(place);
}

/// Moves the runs of the chunk behind into this one, and hands out the empty vector.
pub fn join(chunk: &mut Chunk, next: Chunk) -> Vec<Run>
    requires few { length chunk.old.runs.items < 128 }
    requires light { length next.runs.items < 512 }
    requires room { 640 ≤ vec_capacity chunk.old.runs }
    requires next_room { 640 ≤ vec_capacity next.runs }
    ensures runs { chunk.new.runs.items ≡ chunk.old.runs.items ++ next.runs.items }
    ensures low { chunk.new.low ≡ chunk.old.low }
    ensures light { length chunk.new.runs.items < 640 }
    ensures room { 640 ≤ vec_capacity chunk.new.runs }
    ensures blank { IsBlank result }
{
    let Chunk { low: _, mut runs } = next;
    match chunk.runs.append(&mut runs) {
        Ok(()) => {}
        Err(_) => unreachable!(),
    }
    runs
}

/// Moves the upper half of a full chunk into a chunk of its own.
pub fn halve(chunk: &mut Chunk, order: Order, empty: Vec<Run>) -> Chunk
    requires full { 512 ≤ length chunk.old.runs.items }
    requires light { length chunk.old.runs.items < 640 }
    requires room { 640 ≤ vec_capacity chunk.old.runs }
    requires blank { IsBlank empty }
    ensures { IsHalved (order_key order) chunk.old chunk.new result }
{
    let mut runs = empty;
    match runs.extend_from_slice(&chunk.runs[FULL / 2..]) {
        Ok(()) => {}
        Err(_) => unreachable!(),
    }
    chunk.runs.truncate(FULL / 2);
    let low = order.rank(runs[0]);
    Chunk { low, runs }
}
