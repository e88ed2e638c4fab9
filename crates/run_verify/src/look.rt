ghost use Rattle.std.specs.Prelude.{◌≡◌, ◌↔◌, ◌≤◌, ◌<◌, ◌+◌, ◌^◌, All, length, IfOk, IsTrue};
ghost use Rattle.erasure_code.specs.Spaces.{bytes_at};
ghost use Rattle.group_types.specs.Dimensions.{space_of};
ghost use Rattle.group_types.specs.Names.{IsProcess};
ghost use Rattle.transcript_text.specs.Texts.{FitsNumber};
ghost use Rattle.run_verify.specs.Accounts.{account_of, lists_of};
ghost use Rattle.run_verify.specs.Judging.{Judges};
ghost use Rattle.run_verify.specs.Passing.{TellsBytes};
ghost use Rattle.run_verify.specs.Showing.{AreBelow, IsFitChange, IsLooked, IsStamped, IsWordTold, space_seen, stamp_len};

use crate::account::Account;
use crate::change::Change;
use crate::keep::changes_of;
use crate::spaces::{coded_part, held_part};
use group_types::{ProcessId, Run, Shape};
use std::alloc::AllocError;
use transcript_text::shown::shown;
use transcript_text::value::is_value_of;

impl Account {
    /// Takes a line for a look at a run of a process, if the line tells what can be seen there.
    pub(crate) fn look(
        &mut self,
        shape: Shape,
        at: ProcessId,
        run: Run,
        line: &[u8],
    ) -> Result<bool, AllocError>
        requires process { IsProcess shape at }
        requires run { run.at + run.len ≤ space_of shape }
        requires partitions { length self.old.changes.items ≡ shape.k }
        requires fit { All (All (IsFitChange shape)) (lists_of self.old.changes.items) }
        requires shown { self.old.shown < 2 ^ 62 }
        ensures { Judges (IsLooked shape (account_of self.old) at run line.now) (account_of self.new) result }
    {
        if line == b"lost".as_slice() || line == b"down".as_slice() {
            return Ok(true);
        }
        if !self.tells_bytes(shape, at, run, line)? {
            return Ok(false);
        }
        self.shown += 1;
        Ok(true)
    }

    /// Whether a line shows the bytes that the changes have left, at a stamp that can be.
    fn tells_bytes(
        &mut self,
        shape: Shape,
        at: ProcessId,
        run: Run,
        line: &[u8],
    ) -> Result<bool, AllocError>
        requires process { IsProcess shape at }
        requires run { run.at + run.len ≤ space_of shape }
        requires partitions { length self.old.changes.items ≡ shape.k }
        requires fit { All (All (IsFitChange shape)) (lists_of self.old.changes.items) }
        ensures told { IfOk result (λ yes. IsTrue yes ↔ TellsBytes shape (account_of self.old) at run line.now) }
        ensures same { account_of self.new ≡ account_of self.old }
    {
        let mut stamp = vec![in self.alloc; 0; stamp_len(shape, at) as usize]?;
        self.tells_in(shape, at, run, line, &mut stamp)
    }

    /// The same, where the stamp is read into this room.
    fn tells_in(
        &mut self,
        shape: Shape,
        at: ProcessId,
        run: Run,
        line: &[u8],
        stamp: &mut [u64],
    ) -> Result<bool, AllocError>
        requires process { IsProcess shape at }
        requires run { run.at + run.len ≤ space_of shape }
        requires partitions { length self.old.changes.items ≡ shape.k }
        requires fit { All (All (IsFitChange shape)) (lists_of self.old.changes.items) }
        requires stamp { length stamp.old ≡ stamp_len shape at }
        ensures told { IfOk result (λ yes. IsTrue yes ↔ TellsBytes shape (account_of self.old) at run line.now) }
        ensures same { account_of self.new ≡ account_of self.old }
    {
        match shown(line, stamp) {
            None => Ok(false),
            Some(word) => {
                are_numbers(stamp);
                self.is_shown(shape, at, run, stamp, word)
            }
        }
    }

    /// Whether a stamp can be, and a word is the text of the bytes there.
    fn is_shown(
        &mut self,
        shape: Shape,
        at: ProcessId,
        run: Run,
        stamp: &[u64],
        word: &[u8],
    ) -> Result<bool, AllocError>
        requires process { IsProcess shape at }
        requires run { run.at + run.len ≤ space_of shape }
        requires partitions { length self.old.changes.items ≡ shape.k }
        requires fit { All (All (IsFitChange shape)) (lists_of self.old.changes.items) }
        requires stamp { length stamp.now ≡ stamp_len shape at }
        ensures told { IfOk result (λ yes. IsTrue yes
            ↔ IsWordTold shape (lists_of self.old.changes.items) at run stamp.now word.now) }
        ensures same { account_of self.new ≡ account_of self.old }
    {
        if !self.is_stamped(shape, at, stamp) {
            return Ok(false);
        }
        let bytes = self.part(shape, at, run, stamp)?;
        Ok(is_value_of(word, &bytes))
    }

    /// Whether no number of a stamp is above what was logged.
    fn is_stamped(&self, shape: Shape, at: ProcessId, stamp: &[u64]) -> bool
        requires process { IsProcess shape at }
        requires partitions { length self.now.changes.items ≡ shape.k }
        requires stamp { length stamp.now ≡ stamp_len shape at }
        ensures { IsTrue result ↔ IsStamped (lists_of self.now.changes.items) at stamp.now }
    {
        let _partitions = shape.k();
        match at {
            ProcessId::DataNode(d) => are_below(&self.changes, d, stamp),
            ProcessId::ParityNode(_) => are_below(&self.changes, 0, stamp),
        }
    }

    /// The bytes of a run of a process at a stamp.
    fn part(
        &mut self,
        shape: Shape,
        at: ProcessId,
        run: Run,
        stamp: &[u64],
    ) -> Result<Vec<u8>, AllocError>
        requires process { IsProcess shape at }
        requires run { run.at + run.len ≤ space_of shape }
        requires partitions { length self.old.changes.items ≡ shape.k }
        requires fit { All (All (IsFitChange shape)) (lists_of self.old.changes.items) }
        requires stamp { length stamp.now ≡ stamp_len shape at }
        requires below { IsStamped (lists_of self.old.changes.items) at stamp.now }
        ensures bytes { IfOk result (λ bytes. bytes.items
            ≡ bytes_at run.at run.len (space_seen shape (lists_of self.old.changes.items) at stamp.now)) }
        ensures same { account_of self.new ≡ account_of self.old }
    {
        let shadows = &mut self.shadows;
        let changes = &self.changes;
        match at {
            ProcessId::DataNode(d) => {
                held_part(self.alloc, shape, shadows, changes, d, run, stamp[0])
            }
            ProcessId::ParityNode(i) => {
                coded_part(self.alloc, shape, shadows, changes, i, run, stamp)
            }
        }
    }
}

fn are_numbers(stamp: &[u64])
    ensures { All FitsNumber stamp.now }
{
    let _long = stamp.len();
}

/// How many numbers a stamp of a process has.
fn stamp_len(shape: Shape, at: ProcessId) -> u32
    ensures { result ≡ stamp_len shape at }
{
    match at {
        ProcessId::DataNode(_) => 1,
        ProcessId::ParityNode(_) => shape.k(),
    }
}

/// Whether no number of a stamp is above the changes of its partition, from one on.
fn are_below(changes: &[Vec<Change>], from: u32, stamp: &[u64]) -> bool
    requires within { from + length stamp.now ≤ length changes.now }
    requires few { length changes.now ≤ 16 }
    ensures { IsTrue result ↔ AreBelow (lists_of changes.now) from stamp.now }
{
    let mut partition = from;
    let mut rest = stamp;
    'partitions: while let [number, more @ ..] = rest {
        if (changes_of(changes, partition).len() as u64) < *number {
            return false;
        }
        partition += 1;
        rest = more;
    }
    true
}
