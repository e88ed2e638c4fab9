ghost use Rattle.std.specs.Prelude.{◌≡◌, ◌<◌, ◌==◌, ◌↔◌, [], ◌∷◌, length, IsTrue, IfOk, IfSome};
ghost use Rattle.std.specs.List.{list_any};
ghost use Rattle.group_types.specs.Dimensions.{space_of};
ghost use Rattle.group_types.specs.Lists.{at, put};
ghost use Rattle.group_run.specs.Applying.{rebuilt_after};
ghost use Rattle.group_run.specs.Fitting.{Writes};
ghost use Rattle.group_run.specs.Leaders.{missing_block, rebuilt_bytes};
ghost use Rattle.group_run.specs.Process.{no_leader_state};
ghost use Rattle.page_map.specs.Spaces.{LiesIn};

use crate::rebuilt;
use crate::session::OpenSession;
use group_message::Update;
use group_types::{ByteList, Partition, Run, Shape};
use page_map::Pages;
use std::alloc::{AllocError, Global};
use std::marker::Model;

mod gathering;
mod start;

/// The open sessions of a leader, the number of the last one, and the rebuilt blocks of each partition.
#[derive(Debug, Drop)]
pub struct Sessions {
    shape: Shape,
    sessions: Vec<OpenSession>,
    last: u64,
    rebuilt: Vec<Pages>,
}

impl Model for Sessions {
    ghost use Rattle.block_sessions.specs.Leading.{AreParts, Leading, leader_state_of};

    ghost Value = { Leading };

    ghost view = { λ s. record { shape = s.shape; state = leader_state_of s.sessions.items s.last s.rebuilt.items } };

    ghost invariant = { λ s. AreParts s.shape s.sessions.items s.last s.rebuilt.items };
}

impl Sessions {
    /// No session, and no block that is rebuilt.
    pub fn new(alloc: Global, shape: Shape) -> Result<Sessions, AllocError>
        ensures shape { IfOk result (λ s. s.shape ≡ shape) }
        ensures state { IfOk result (λ s. s.state ≡ no_leader_state shape) }
    {
        let mut rebuilt = Vec::with_capacity(alloc, shape.k() as usize)?;
        'partitions: for _ in 0..shape.k() {
            rebuilt.push(Pages::new(alloc, shape.blocks(), shape.block())?)?;
        }
        Ok(Sessions {
            shape,
            sessions: Vec::new(alloc),
            last: 0,
            rebuilt,
        })
    }

    /// The lowest block of a run that isn't rebuilt for partition `d`.
    pub fn missing(&self, d: Partition, run: Run) -> Option<u32>
        requires partition { d.0 < self.now.shape.k }
        requires within { LiesIn run self.now.shape }
        ensures block { result ≡ missing_block self.now.shape d.0 run self.now.state }
        ensures below { IfSome result (λ b. b < self.now.shape.blocks) }
    {
        rebuilt::missing(self.shape, &self.rebuilt[d.0 as usize], run)
    }

    /// The rebuilt bytes of a run of partition `d`.
    pub fn read(&self, d: Partition, run: Run) -> Result<ByteList, AllocError>
        requires partition { d.0 < self.now.shape.k }
        requires within { LiesIn run self.now.shape }
        ensures bytes { IfOk result (λ bytes. bytes ≡ rebuilt_bytes self.now.shape d.0 run self.now.state) }
        ensures length { IfOk result (λ bytes. length bytes ≡ run.len) }
    {
        rebuilt::read(self.shape, &self.rebuilt[d.0 as usize], run)
    }

    /// Adds an update of partition `d` to its rebuilt blocks. It takes no memory.
    pub fn add(&mut self, d: Partition, update: &Update)
        requires partition { d.0 < self.old.shape.k }
        requires writes { Writes (space_of self.old.shape) update.now.body }
        ensures shape { self.new.shape ≡ self.old.shape }
        ensures state { self.new.state ≡ record self.old.state {
          rebuilt = put [] self.old.state.rebuilt d.0 (rebuilt_after self.old.shape d.0 (update.now ∷ []) 0 (at [] self.old.state.rebuilt d.0));
        } }
    {
        rebuilt::add(self.shape, d, update, &mut self.rebuilt[d.0 as usize]);
    }

    /// Whether a session for this block is open.
    pub fn is_open_for(&self, block: u32) -> bool
        ensures { result ≡ list_any (λ g. g.block == block) self.now.state.sessions }
    {
        is_open_for(&self.sessions, block)
    }

    /// Whether no session is open.
    pub fn is_idle(&self) -> bool
        ensures { IsTrue result ↔ self.now.state.sessions ≡ [] }
    {
        self.sessions.is_empty()
    }

    /// The number of the last session.
    pub fn last(&self) -> u64
        ensures number { result ≡ self.now.state.last_session }
        ensures partitions { length self.now.state.rebuilt ≡ self.now.shape.k }
    {
        self.last
    }

    /// Closes all sessions.
    pub fn close_all(&mut self)
        ensures shape { self.new.shape ≡ self.old.shape }
        ensures state { self.new.state ≡ record self.old.state { sessions = [] } }
    {
        self.sessions.clear();
    }
}

// Whether one of the sessions is for this block.
fn is_open_for(sessions: &[OpenSession], block: u32) -> bool
    ensures { result ≡ list_any (λ g. g.block == block) sessions.now }
{
    sessions.iter().any(|session| session.block == block)
}
