ghost use Rattle.std.specs.Prelude.{◌≡◌, ◌<◌, [], ◌∷◌, length, replicate, IfOk};
ghost use Rattle.group_types.specs.declared.process.ProcessId.TheVariants.{ParityNode};
ghost use Rattle.group_run.specs.Applying.{copy_after};
ghost use Rattle.group_run.specs.Rows.{is_copy, is_marked, marked, marks_of};
ghost use Rattle.row_copies.specs.Row.{IsWholeCopy, unmarked};

use crate::area::add_body;
use crate::marks::{are_all, write};
use group_message::Update;
use group_types::{ByteList, Partition, Shape};
use std::marker::Model;
use vector_stamp::Stamp;

mod coming;

/// A copy of a block for a session, with the number of each partition that is marked.
#[derive(Debug, Drop)]
pub struct Copy {
    leader: u32,
    number: u64,
    block: u32,
    bytes: ByteList,
    marks: Vec<Option<u64>>,
}

impl Model for Copy {
    ghost use Rattle.group_run.specs.Process as machine;

    ghost Value = { machine.Copy };

    ghost view = { λ c. record { leader = c.leader; number = c.number; block = c.block; bytes = c.bytes; marks = c.marks.items } };
}

impl Copy {
    /// A copy of these bytes with these marks.
    pub(crate) fn new(
        leader: u32,
        number: u64,
        block: u32,
        bytes: ByteList,
        marks: Vec<Option<u64>>,
    ) -> Copy
        ensures { result ≡ record { leader = leader; number = number; block = block; bytes = bytes; marks = marks.items } }
    {
        Copy {
            leader,
            number,
            block,
            bytes,
            marks,
        }
    }

    /// The leader of its session.
    pub fn leader(&self) -> u32
        ensures { result ≡ self.now.leader }
    {
        self.leader
    }

    /// The number of its session.
    pub fn number(&self) -> u64
        ensures { result ≡ self.now.number }
    {
        self.number
    }

    /// Whether it is for this session.
    pub(crate) fn is_of(&self, leader: u32, number: u64) -> bool
        ensures { result ≡ is_copy leader number self.now }
    {
        self.leader == leader && self.number == number
    }

    /// Marks a partition: no more of it is added. Whether every partition is marked then.
    pub(crate) fn mark(&mut self, shape: Shape, d: Partition, n: u64) -> bool
        requires marks { length self.old.marks ≡ shape.k }
        requires partition { d.0 < shape.k }
        ensures copy { self.new ≡ marked d.0 n self.old }
        ensures all { result ≡ is_marked shape self.new }
    {
        self.marks[d.0 as usize] = Some(n);
        are_all(&self.marks, shape.k())
    }

    /// Adds what an update of a partition makes in the block, times the coefficient of parity process
    /// `number`, unless the partition is marked.
    pub(crate) fn add(&mut self, shape: Shape, number: u32, d: Partition, update: &Update)
        requires whole { IsWholeCopy shape self.old }
        requires number { number < shape.m }
        requires partition { d.0 < shape.k }
        ensures copy { self.new ≡ copy_after shape (ParityNode number) d.0 (update.now ∷ []) self.old }
        ensures whole { IsWholeCopy shape self.new }
    {
        if self.marks[d.0 as usize].is_some() {
            return;
        }
        let bytes = self.bytes.bytes_mut();
        add_body(shape, number, d.0, self.block, &update.body, bytes);
    }

    /// Writes the numbers of the marks into a stamp of zeros.
    pub fn stamp(&self, shape: Shape, into: &mut Stamp)
        requires marks { length self.now.marks ≡ shape.k }
        requires zeros { into.old ≡ replicate shape.k 0 }
        ensures { into.new ≡ marks_of shape self.now }
    {
        write(&self.marks, shape.k(), into);
    }

    /// Its bytes.
    pub fn into_bytes(self) -> ByteList
        ensures { result ≡ self.bytes }
    {
        self.bytes
    }
}
