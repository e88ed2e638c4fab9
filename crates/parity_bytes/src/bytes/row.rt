ghost use Rattle.std.specs.Prelude.{◌≡◌, ◌≤◌, ◌<◌, max, nat_lt, is_some, false, length, replicate, None, IfOk, IfSome, OnErr, OnOk};
ghost use Rattle.group_types.specs.Lists.{at};
ghost use Rattle.group_run.specs.Leaders.{copy_marked};
ghost use Rattle.group_run.specs.Process.{Process};
ghost use Rattle.group_run.specs.Rows.{begin_copy, block_in, copies_ceased, copy_in, leader_forgotten, with_copies};
ghost use Rattle.parity_bytes.specs.Bytes.{Stays};
ghost use Rattle.parity_bytes.specs.Starting.{begun_if};
ghost use Rattle.row_copies.specs.Laws.{handed_on};
ghost use Rattle.row_copies.specs.Row.{IsWholeCopy, marking};

use super::ParityBytes;
use group_types::{ByteList, Partition, ProcessId, Run, Shape};
use parity_space::ParitySpace;
use row_copies::laws::marks_are_the_machines;
use row_copies::{Copy, Rows};
use std::alloc::AllocError;

impl ParityBytes {
    /// Whether a session is above the last that its leader ceased.
    pub fn accepts(&self, leader: u32, number: u64) -> bool
        requires { leader < self.now.shape.m }
        ensures { result ≡ nat_lt (at 0 self.now.process.as_row.ceased leader) number }
    {
        self.rows.accepts(leader, number)
    }

    /// Begins a copy of a block as it stands, unless there is one for the session.
    pub fn begin(&mut self, leader: u32, number: u64, block: u32) -> Result<(), AllocError>
        requires leader { leader < self.old.shape.m }
        requires block { block < self.old.shape.blocks }
        ensures stays { Stays self.old self.new }
        ensures ok { OnOk result (self.new.process ≡ begin_copy self.old.shape leader number block self.old.process) }
        ensures wanted { OnErr result (is_some (copy_in self.old.process.as_row.copies leader number) ≡ false) }
        ensures err { OnErr result (self.new ≡ self.old) }
    {
        if self.rows.has(leader, number) {
            return Ok(());
        }
        let blank = blank_for(self.shape, block, &self.space, &mut self.rows)?;
        self.rows
            .begin(leader, number, block, blank.bytes, blank.marks);
        Ok(())
    }

    /// Marks a partition in the copy for a session, if there is one, and hands the copy out if it was the
    /// last mark. It takes no memory.
    pub fn mark(&mut self, leader: u32, number: u64, d: Partition, n: u64) -> Option<Copy>
        requires { d.0 < self.old.shape.k }
        ensures stays { Stays self.old self.new }
        ensures process { self.new.process ≡ with_copies
            (marking self.old.shape d.0 n (copy_in self.old.process.as_row.copies leader number)
            self.old.process.as_row.copies).copies self.old.process }
        ensures done { result ≡ (marking self.old.shape d.0 n
            (copy_in self.old.process.as_row.copies leader number) self.old.process.as_row.copies).done }
        ensures whole { IfSome result (IsWholeCopy self.old.shape) }
        ensures machine { copy_marked self.old.shape d.0 n (copy_in self.old.process.as_row.copies leader number)
            self.old.process
            ≡ handed_on self.old.shape result self.new.process }
    {
        marks_are_the_machines();
        self.rows.mark(leader, number, d, n)
    }

    /// Forgets the copies for a leader's sessions up to a number, and accepts none of them any more.
    pub fn cease(&mut self, leader: u32, upto: u64)
        requires { leader < self.old.shape.m }
        ensures stays { Stays self.old self.new }
        ensures process { self.new.process ≡ copies_ceased leader upto self.old.process }
    {
        self.rows.cease(leader, upto);
    }

    /// Forgets the copies for a dead leader's sessions.
    pub fn forget(&mut self, leader: ProcessId)
        ensures stays { Stays self.old self.new }
        ensures process { self.new.process ≡ leader_forgotten leader self.old.process }
    {
        self.rows.forget(leader);
    }
}

/// What a copy that begins takes of memory: the bytes of its block, and its marks, of which none is there.
#[derive(Drop)]
pub(crate) struct Blank {
    bytes: ByteList,
    marks: Vec<Option<u64>>,
}

/// Makes what a copy of a block takes, and room for it.
pub(crate) fn blank_for(
    shape: Shape,
    block: u32,
    space: &ParitySpace,
    rows: &mut Rows,
) -> Result<Blank, AllocError>
    requires block { block < shape.blocks }
    requires space { space.now.shape ≡ shape }
    requires rows { rows.old.shape ≡ shape }
    ensures bytes { IfOk result (λ blank. blank.bytes ≡ block_in shape block space.now.bytes) }
    ensures length { IfOk result (λ blank. length blank.bytes ≡ shape.block) }
    ensures marks { IfOk result (λ blank. blank.marks.items ≡ replicate shape.k None) }
    ensures ok { OnOk result (rows.new ≡ record rows.old { room = max rows.old.room 1 }) }
    ensures err { OnErr result (rows.new ≡ rows.old) }
{
    let len = shape.block();
    let at = block * len;
    let bytes = space.range(Run { at, len })?;
    let marks = rows.reserve()?;
    Ok(Blank { bytes, marks })
}

/// Begins a leader's own copy for its session, where its row takes it. It takes no memory.
pub(crate) fn begin_own(leader: u32, number: u64, block: u32, blank: Blank, rows: &mut Rows)
    requires room { 1 ≤ rows.old.room }
    requires leader { leader < rows.old.shape.m }
    requires block { block < rows.old.shape.blocks }
    requires length { length blank.bytes ≡ rows.old.shape.block }
    requires marks { blank.marks.items ≡ replicate rows.old.shape.k None }
    ensures shape { rows.new.shape ≡ rows.old.shape }
    ensures number { rows.new.number ≡ rows.old.number }
    ensures state { (p : Process) → p.as_row ≡ rows.old.state → block_in rows.old.shape block p.space ≡ blank.bytes
        → rows.new.state ≡ (begun_if (nat_lt (at 0 rows.old.state.ceased leader) number) rows.old.shape leader number
        block p).as_row }
{
    if !rows.accepts(leader, number) {
        return;
    }
    if rows.has(leader, number) {
        return;
    }
    rows.begin(leader, number, block, blank.bytes, blank.marks);
}
