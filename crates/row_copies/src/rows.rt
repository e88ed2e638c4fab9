ghost use Rattle.std.specs.Prelude.{◌≡◌, ◌-◌, ◌<◌, ◌≤◌, max, replicate, None, nat_lt, [], ◌∷◌, ◌++◌, length, map, is_some, false, IfOk, OnOk, OnErr, IfSome};
ghost use Rattle.group_types.specs.Lists.{at};
ghost use Rattle.group_types.specs.declared.process.ProcessId.TheVariants.{ParityNode};
ghost use Rattle.group_run.specs.Applying.{copy_after};
ghost use Rattle.group_run.specs.Process.{Process, no_row_state};
ghost use Rattle.group_run.specs.Rows.{copies_ceased, copy_in, leader_forgotten};
ghost use Rattle.row_copies.specs.Row.{IsWholeCopy, marking, unmarked};

use crate::copies;
use crate::copy::Copy;
use group_message::Update;
use group_types::{ByteList, Partition, ProcessId, Shape};
use std::alloc::{AllocError, Global};
use std::marker::Model;

mod coming;

/// What a row keeps for others' sessions: its copies, and the last session that each leader ceased.
#[derive(Debug, Drop)]
pub struct Rows {
    shape: Shape,
    number: u32,
    copies: Vec<Copy>,
    ceased: Vec<u64>,
    room: u32,
}

impl Model for Rows {
    ghost use Rattle.std.specs.Prelude.{◌+◌, ◌≤◌, vec_len, vec_capacity};
    ghost use Rattle.row_copies.specs.Row.{IsRow, Row, row_of};

    ghost Value = { Row };

    ghost view = { λ r. row_of r.shape r.number r.room r.copies.items r.ceased.items };

    ghost invariant = { λ r. IsRow (row_of r.shape r.number r.room r.copies.items r.ceased.items)
        × (vec_len r.copies + r.room ≤ vec_capacity r.copies) };
}

impl Rows {
    /// Of parity process `number`, with no copy, and room for none.
    pub fn new(alloc: Global, shape: Shape, number: u32) -> Result<Rows, AllocError>
        requires { number < shape.m }
        ensures shape { IfOk result (λ rows. rows.shape ≡ shape) }
        ensures number { IfOk result (λ rows. rows.number ≡ number) }
        ensures state { IfOk result (λ rows. rows.state ≡ no_row_state shape) }
        ensures room { IfOk result (λ rows. rows.room ≡ 0) }
    {
        Ok(Rows {
            shape,
            number,
            copies: Vec::new(alloc),
            ceased: vec![in alloc; 0; shape.m() as usize]?,
            room: 0,
        })
    }

    /// Whether a session is above the last that its leader ceased.
    pub fn accepts(&self, leader: u32, number: u64) -> bool
        requires { leader < self.now.shape.m }
        ensures { result ≡ nat_lt (at 0 self.now.state.ceased leader) number }
    {
        self.ceased[leader as usize] < number
    }

    /// Whether there is a copy for a session.
    pub fn has(&self, leader: u32, number: u64) -> bool
        ensures { result ≡ is_some (copy_in self.now.state.copies leader number) }
    {
        copies::place_of(&self.copies, leader, number).is_some()
    }

    /// Makes room for one copy more, and the marks of a copy that has none yet.
    pub fn reserve(&mut self) -> Result<Vec<Option<u64>>, AllocError>
        ensures ok { OnOk result (self.new ≡ record self.old { room = max self.old.room 1 }) }
        ensures marks { IfOk result (λ marks. marks.items ≡ replicate self.old.shape.k None) }
        ensures err { OnErr result (self.new ≡ self.old) }
    {
        let alloc = *self.copies.allocator();
        let marks = vec![in alloc; None; self.shape.k() as usize]?;
        let room = self.room.max(1);
        self.copies.reserve(room as usize)?;
        self.room = room;
        Ok(marks)
    }

    /// Begins a copy for a session that there is none for: these are the bytes of the block. It takes no
    /// memory.
    pub fn begin(
        &mut self,
        leader: u32,
        number: u64,
        block: u32,
        bytes: ByteList,
        marks: Vec<Option<u64>>,
    )
        requires room { 1 ≤ self.old.room }
        requires leader { leader < self.old.shape.m }
        requires block { block < self.old.shape.blocks }
        requires bytes { length bytes ≡ self.old.shape.block }
        requires marks { marks.items ≡ replicate self.old.shape.k None }
        requires absent { is_some (copy_in self.old.state.copies leader number) ≡ false }
        ensures shape { self.new.shape ≡ self.old.shape }
        ensures number { self.new.number ≡ self.old.number }
        ensures room { self.new.room ≡ self.old.room - 1 }
        ensures copies { self.new.state.copies ≡ self.old.state.copies
            ++ unmarked self.old.shape leader number block bytes ∷ [] }
        ensures ceased { self.new.state.ceased ≡ self.old.state.ceased }
    {
        self.room -= 1;
        let copy = Copy::new(leader, number, block, bytes, marks);
        match self.copies.push(copy) {
            Ok(()) => {}
            Err(_) => unreachable!(),
        }
    }

    /// Marks a partition in the copy for a session, if there is one: no more of the partition is added
    /// to it. A copy whose marks are all there is handed out. It takes no memory.
    pub fn mark(&mut self, leader: u32, number: u64, d: Partition, n: u64) -> Option<Copy>
        requires { d.0 < self.old.shape.k }
        ensures shape { self.new.shape ≡ self.old.shape }
        ensures number { self.new.number ≡ self.old.number }
        ensures room { self.new.room ≡ self.old.room }
        ensures copies { self.new.state.copies
            ≡ (marking self.old.shape d.0 n (copy_in self.old.state.copies leader number) self.old.state.copies).copies }
        ensures done { result ≡ (marking self.old.shape d.0 n (copy_in self.old.state.copies leader number)
            self.old.state.copies).done }
        ensures whole { IfSome result (IsWholeCopy self.old.shape) }
        ensures ceased { self.new.state.ceased ≡ self.old.state.ceased }
    {
        copies::mark(&mut self.copies, self.shape, leader, number, d, n)
    }

    /// Forgets a leader's sessions up to a number, and accepts none of them any more.
    pub fn cease(&mut self, leader: u32, upto: u64)
        requires { leader < self.old.shape.m }
        ensures shape { self.new.shape ≡ self.old.shape }
        ensures number { self.new.number ≡ self.old.number }
        ensures room { self.new.room ≡ self.old.room }
        ensures state { (p : Process) → p.as_row ≡ self.old.state → self.new.state
            ≡ (copies_ceased leader upto p).as_row }
    {
        copies::cease(&mut self.copies, leader, upto);
        let last = self.ceased[leader as usize];
        self.ceased[leader as usize] = last.max(upto);
    }

    /// Forgets a dead leader's sessions.
    pub fn forget(&mut self, leader: ProcessId)
        ensures shape { self.new.shape ≡ self.old.shape }
        ensures number { self.new.number ≡ self.old.number }
        ensures room { self.new.room ≡ self.old.room }
        ensures state { (p : Process) → p.as_row ≡ self.old.state → self.new.state
            ≡ (leader_forgotten leader p).as_row }
    {
        match leader {
            ProcessId::DataNode(_) => {}
            ProcessId::ParityNode(leader) => copies::forget(&mut self.copies, leader),
        }
    }

    /// Adds an update of a partition to each copy where it isn't marked, as far as it meets the block.
    /// It takes no memory.
    pub fn add(&mut self, d: Partition, update: &Update)
        requires { d.0 < self.old.shape.k }
        ensures shape { self.new.shape ≡ self.old.shape }
        ensures number { self.new.number ≡ self.old.number }
        ensures room { self.new.room ≡ self.old.room }
        ensures copies { self.new.state.copies
            ≡ map (copy_after self.old.shape (ParityNode self.old.number) d.0 (update.now ∷ [])) self.old.state.copies }
        ensures ceased { self.new.state.ceased ≡ self.old.state.ceased }
    {
        copies::add(&mut self.copies, self.shape, self.number, d, update);
    }
}
