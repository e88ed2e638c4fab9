ghost use Rattle.std.specs.Prelude.{◌≡◌, ℕ, ◌+◌, ◌-◌, ◌*◌, ◌<◌, ◌≤◌, [], ◌∷◌, length, map, not, find, is_some, None, IfOk, IfSome};
ghost use Rattle.std.specs.List.{range_with_len};
ghost use Rattle.std.specs.Option.{option_map};
ghost use Rattle.group_types.specs.Dimensions.{space_of};
ghost use Rattle.group_types.specs.Lists.{at};
ghost use Rattle.group_run.specs.Applying.{area_added, rebuilt_after};
ghost use Rattle.group_run.specs.Fitting.{Writes};
ghost use Rattle.group_run.specs.Leaders.{blocks_met};
ghost use Rattle.page_map.specs.Pages.{page_in};
ghost use Rattle.page_map.specs.Spaces.{LiesIn};
ghost use Rattle.block_sessions.specs.Rebuilt.{HoldsBlocks, byte_in_blocks, kept_unless, rebuilt_in};

use crate::area::add_area;
use group_message::{Body, Update};
use group_types::{ByteList, Partition, Run, Shape};
use page_map::Pages;
use std::alloc::AllocError;

/// The lowest block of a run that has no page.
pub(crate) fn missing(shape: Shape, pages: &Pages, run: Run) -> Option<u32>
    requires holds { HoldsBlocks shape 0 pages.now }
    requires within { LiesIn run shape }
    ensures block { result ≡ find (λ b. not (is_some (at None (rebuilt_in pages.now) b))) (blocks_met shape run) }
    ensures below { IfSome result (λ b. b < shape.blocks) }
{
    if run.len == 0 {
        return None;
    }
    let first = run.at / shape.block();
    let last = (run.at + run.len - 1) / shape.block();
    'numbers: for b in first..last + 1 {
        if !pages.has(b) {
            return Some(b);
        }
    }
    None
}

/// The bytes of a run.
pub(crate) fn read(shape: Shape, pages: &Pages, run: Run) -> Result<ByteList, AllocError>
    requires holds { HoldsBlocks shape 0 pages.now }
    requires within { LiesIn run shape }
    ensures bytes { IfOk result (λ bytes. bytes
        ≡ map (byte_in_blocks shape.block (rebuilt_in pages.now)) (range_with_len run.at run.len)) }
    ensures length { IfOk result (λ bytes. length bytes ≡ run.len) }
{
    pages.range(run.at, run.len)
}

/// Adds an update of partition `d` to its blocks that are there. It takes no memory.
pub(crate) fn add(shape: Shape, d: Partition, update: &Update, pages: &mut Pages)
    requires holds { HoldsBlocks shape 0 pages.old }
    requires writes { Writes (space_of shape) update.now.body }
    ensures blocks { rebuilt_in pages.new ≡ rebuilt_after shape d.0 (update.now ∷ []) 0 (rebuilt_in pages.old) }
    ensures holds { (most : ℕ) → HoldsBlocks shape most pages.old → HoldsBlocks shape most pages.new }
{
    match &update.body {
        Body::Put { run, delta, .. } => add_run(shape, run.at, delta.bytes(), pages),
        Body::Remove => {}
        Body::Touch { .. } => {}
    }
}

fn add_run(shape: Shape, at: u32, delta: &[u8], pages: &mut Pages)
    requires holds { HoldsBlocks shape 0 pages.old }
    requires within { at + length delta.now ≤ space_of shape }
    ensures blocks { (b : ℕ) → page_in pages.new b
        ≡ option_map (area_added (b * shape.block) at delta.now) (page_in pages.old b) }
    ensures holds { (most : ℕ) → HoldsBlocks shape most pages.old → HoldsBlocks shape most pages.new }
{
    if delta.is_empty() {
        return;
    }
    let block = shape.block();
    let last = (at as usize + delta.len() - 1) as u32 / block;
    'numbers: for b in at / block..last + 1 {
        if pages.has(b) {
            add_area(b * block, at, delta, pages.page_mut(b));
        }
    }
}

/// Keeps a block where there was none. It takes no memory.
pub(crate) fn keep(shape: Shape, block: u32, bytes: ByteList, pages: &mut Pages)
    requires holds { HoldsBlocks shape 1 pages.old }
    requires below { block < shape.blocks }
    requires whole { length bytes ≡ shape.block }
    ensures kept { rebuilt_in pages.new
        ≡ kept_unless (is_some (at None (rebuilt_in pages.old) block)) block bytes (rebuilt_in pages.old) }
    ensures holds { (most : ℕ) → HoldsBlocks shape most pages.old → HoldsBlocks shape (most - 1) pages.new }
{
    if !pages.has(block) {
        pages.place(block, bytes);
    }
}
