ghost use Rattle.std.specs.Prelude.{◌≡◌, suc, ◌<◌, ◌^◌, ◌==◌, ◌↔◌, [], length, Contains, IfOk, IfSome, IsTrue, OnErr, OnOk};
ghost use Rattle.std.specs.List.{list_any};
ghost use Rattle.group_run.specs.Leaders.{block_comes, open_session, row_comes, with_leader};
ghost use Rattle.group_run.specs.Rows.{parity_number};
ghost use Rattle.block_sessions.specs.Opened.{AreLost};
ghost use Rattle.parity_bytes.specs.Bytes.{Stays};
ghost use Rattle.parity_bytes.specs.Starting.{session_begun};

use super::ParityBytes;
use super::row::{begin_own, blank_for};
use group_types::ByteList;
use std::alloc::AllocError;

impl ParityBytes {
    /// Opens a session for a block of these lost partitions, with these rows, begins the leader's own copy
    /// for it, and hands out its number. It takes the memory of all that will come in.
    pub fn start(&mut self, block: u32, lost: Vec<u32>, rows: Vec<u32>) -> Result<u64, AllocError>
        requires block { block < self.old.shape.blocks }
        requires lost { AreLost self.old.shape lost.items rows.items }
        requires numbers { self.old.process.as_leader.last_session < 2 ^ 62 }
        ensures stays { Stays self.old self.new }
        ensures number { IfOk result (λ n. n ≡ suc self.old.process.as_leader.last_session) }
        ensures process { OnOk result (self.new.process
            ≡ session_begun self.old.shape (parity_number self.old.process.name) block lost.items rows.items
            self.old.process) }
        ensures err { OnErr result (self.new ≡ self.old) }
    {
        let blank = blank_for(self.shape, block, &self.space, &mut self.rows)?;
        let number = self.sessions.start(block, lost, rows)?;
        begin_own(self.number, number, block, blank, &mut self.rows);
        Ok(number)
    }

    /// A block of data process `d` comes in. It takes no memory.
    pub fn block(&mut self, number: u64, d: u32, bytes: &ByteList)
        requires partition { d < self.old.shape.k }
        requires whole { length bytes.now ≡ self.old.shape.block }
        requires known { IfSome (open_session self.old.process.as_leader number) (λ g. ¬ (Contains g.lost d)) }
        ensures stays { Stays self.old self.new }
        ensures process { self.new.process ≡ block_comes self.old.shape number d bytes.now self.old.process }
    {
        self.sessions.block(number, d, bytes);
    }

    /// A block of row `i`'s code comes in. It takes no memory.
    pub fn row(&mut self, number: u64, i: u32, bytes: &[u8])
        requires row { i < self.old.shape.m }
        requires whole { length bytes.now ≡ self.old.shape.block }
        requires awaited { IfSome (open_session self.old.process.as_leader number) (λ g. Contains g.rows i) }
        ensures stays { Stays self.old self.new }
        ensures process { self.new.process ≡ row_comes self.old.shape number i bytes.now self.old.process }
    {
        self.sessions.row(number, i, bytes);
    }

    /// Closes all sessions.
    pub fn close_all(&mut self)
        ensures stays { Stays self.old self.new }
        ensures process { self.new.process ≡ with_leader
            (record self.old.process.as_leader { sessions = [] }) self.old.process }
    {
        self.sessions.close_all();
    }

    /// Whether no session is open.
    pub fn is_idle(&self) -> bool
        ensures { IsTrue result ↔ self.now.process.as_leader.sessions ≡ [] }
    {
        self.sessions.is_idle()
    }

    /// Whether a session for this block is open.
    pub fn is_open_for(&self, block: u32) -> bool
        ensures { result ≡ list_any (λ g. g.block == block) self.now.process.as_leader.sessions }
    {
        self.sessions.is_open_for(block)
    }

    /// The number of the last session.
    pub fn last(&self) -> u64
        ensures number { result ≡ self.now.process.as_leader.last_session }
        ensures partitions { length self.now.process.as_leader.rebuilt ≡ self.now.shape.k }
    {
        self.sessions.last()
    }
}
