ghost use Rattle.std.specs.Prelude.{◌≡◌, ℕ, ◌-◌, ◌<◌, ◌==◌, true, false, All, AllPairs, Contains, IfOk, IfSome, length, option_and_then};
ghost use Rattle.std.specs.List.{list_any, slice_get, slice_index_or};
ghost use Rattle.group_run.specs.Fitting.{Writes};
ghost use Rattle.group_run.specs.Leaders.{block_gathered, gathered, is_complete, open_session, row_gathered, with_decoded};
ghost use Rattle.group_run.specs.Process.{Gathering, LeaderState, no_leader_state};
ghost use Rattle.block_sessions.specs.Leading.{AreParts, holding, leader_state_of};
ghost use Rattle.block_sessions.specs.Opened.{AreLost, IsSessionOf, gathering_of};
ghost use Rattle.block_sessions.specs.Rebuilt.{AreRebuilt};
ghost use Rattle.block_sessions.specs.declared.session.OpenSession.{OpenSession};

use super::Sessions;
use crate::rebuilt::keep;
use crate::session::OpenSession;
use group_types::{ByteList, Shape};
use page_map::Pages;

mod coming;

impl Sessions {
    /// A block of data process `d` comes in. It takes no memory.
    pub fn block(&mut self, number: u64, d: u32, bytes: &ByteList)
        requires partition { d < self.old.shape.k }
        requires whole { length bytes.now ≡ self.old.shape.block }
        requires known { IfSome (open_session self.old.state number) (λ g. ¬ (Contains g.lost d)) }
        ensures shape { self.new.shape ≡ self.old.shape }
        ensures state { self.new.state ≡ block_gathered self.old.shape d bytes.now (open_session self.old.state number)
            self.old.state }
        ensures partitions { length self.new.state.rebuilt ≡ length self.old.state.rebuilt }
    {
        if let Some(place) = self.place_of(number) {
            self.sessions[place].block(d, bytes);
            self.gather(place);
        }
    }

    /// A block of row `i`'s code comes in. It takes no memory.
    pub fn row(&mut self, number: u64, i: u32, bytes: &[u8])
        requires row { i < self.old.shape.m }
        requires whole { length bytes.now ≡ self.old.shape.block }
        requires awaited { IfSome (open_session self.old.state number) (λ g. Contains g.rows i) }
        ensures shape { self.new.shape ≡ self.old.shape }
        ensures state { self.new.state ≡ row_gathered self.old.shape i bytes.now (open_session self.old.state number)
            self.old.state }
        ensures partitions { length self.new.state.rebuilt ≡ length self.old.state.rebuilt }
    {
        if let Some(place) = self.place_of(number) {
            self.sessions[place].row(i, bytes);
            self.gather(place);
        }
    }

    // The place of the session of this number.
    fn place_of(&self, number: u64) -> Option<usize>
        ensures found { open_session self.now.state number
            ≡ option_and_then (slice_get self.now.state.sessions) result }
        ensures within { IfSome result (λ place. place < length self.now.state.sessions) }
    {
        self.sessions
            .iter()
            .position(|session| session.number == number)
    }

    // Something came in for the session at this place: once all is in, it is decoded and closed.
    fn gather(&mut self, place: usize)
        requires { place < length self.old.state.sessions }
        ensures shape { self.new.shape ≡ self.old.shape }
        ensures state { (g : Gathering) → self.new.state
            ≡ gathered self.old.shape (slice_index_or self.old.state.sessions place g) self.old.state }
        ensures partitions { length self.new.state.rebuilt ≡ length self.old.state.rebuilt }
    {
        if self.sessions[place].is_complete(self.shape) {
            let session = self.sessions.remove(place);
            keep_all(self.shape, session, &mut self.rebuilt);
        }
    }
}

// Decodes the blocks that a session gives, and keeps those that weren't rebuilt before.
fn keep_all(shape: Shape, session: OpenSession, rebuilt: &mut [Pages])
    requires sound { IsSessionOf shape session }
    requires complete { is_complete shape (gathering_of session) ≡ true }
    requires rebuilt { AreRebuilt shape 1 rebuilt.old }
    ensures kept { (state : LeaderState) → holding rebuilt.new state
        ≡ with_decoded shape (gathering_of session) session.lost.items (holding rebuilt.old state) }
    ensures rebuilt { (most : ℕ) → AreRebuilt shape most rebuilt.old → AreRebuilt shape (most - 1) rebuilt.new }
{
    let mut session = session;
    session.decode(shape);
    let OpenSession {
        block,
        lost,
        mut out,
        ..
    } = session;
    'pieces: for at in 0..lost.len() {
        let l = lost[at];
        keep(shape, block, out.take(l), &mut rebuilt[l as usize]);
    }
}
