ghost use Rattle.std.specs.Prelude.{◌≡◌, ℕ, suc, ◌+◌, ◌<◌, ◌≤◌, ◌^◌, length, map, IfOk, OnErr, OnOk};
ghost use Rattle.group_types.specs.Dimensions.{Dimensions};
ghost use Rattle.block_sessions.specs.Leading.{started};
ghost use Rattle.block_sessions.specs.Opened.{AreLost};
ghost use Rattle.block_sessions.specs.Rebuilt.{AreRebuilt, rebuilt_in};

use super::Sessions;
use crate::session::OpenSession;
use page_map::Pages;
use std::alloc::AllocError;

impl Sessions {
    /// Opens a session for a block of these lost partitions, with these rows, and hands out its number.
    /// It takes the memory of all that will come in.
    pub fn start(&mut self, block: u32, lost: Vec<u32>, rows: Vec<u32>) -> Result<u64, AllocError>
        requires block { block < self.old.shape.blocks }
        requires lost { AreLost self.old.shape lost.items rows.items }
        requires numbers { self.old.state.last_session < 2 ^ 62 }
        ensures shape { self.new.shape ≡ self.old.shape }
        ensures number { IfOk result (λ n. n ≡ suc self.old.state.last_session) }
        ensures state { OnOk result (self.new.state
            ≡ started self.old.shape block lost.items rows.items self.old.state) }
        ensures err { OnErr result (self.new ≡ self.old) }
    {
        let number = self.last + 1;
        let alloc = *self.rebuilt.allocator();
        let session = OpenSession::new(alloc, self.shape, number, block, lost, &rows)?;
        make_room(&mut self.rebuilt, self.sessions.len() + 1)?;
        self.sessions.push(session)?;
        self.last = number;
        Ok(number)
    }
}

// Makes room for this many further pages of each partition.
fn make_room(rebuilt: &mut [Pages], count: usize) -> Result<(), AllocError>
    ensures blocks { map rebuilt_in rebuilt.new ≡ map rebuilt_in rebuilt.old }
    ensures kept { (s : Dimensions) (most : ℕ) → AreRebuilt s most rebuilt.old → AreRebuilt s most rebuilt.new }
    ensures room { OnOk result ((s : Dimensions) (most : ℕ) → most ≤ count → AreRebuilt s 0 rebuilt.old
        → AreRebuilt s most rebuilt.new) }
{
    'pages: for pages in rebuilt.iter_mut() {
        pages.make_room(count)?;
    }
    Ok(())
}
