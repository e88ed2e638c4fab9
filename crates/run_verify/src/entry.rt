ghost use Rattle.std.specs.Prelude.{◌≡◌, ◌↔◌, ◌<◌, ◌^◌, All, slice_get, option_and_then, IfOk, IsTrue};
ghost use Rattle.scenario_text.specs.Texts.{entry_text};
ghost use Rattle.transcript_text.specs.Texts.{FitsName, text_of_name};
ghost use Rattle.run_verify.specs.Accounts.{account_of};
ghost use Rattle.run_verify.specs.Judging.{HasAppliedOp, HasReadEntry, IsEntryTold, open_op};
ghost use Rattle.run_verify.specs.Passing.{IsFrontOf};

use crate::account::Account;
use crate::call::Call;
use crate::calls::{calls_of, fits};
use group_calls::Entry;
use memc_table::Op;
use scenario_text::write_entry::write_entry;
use std::alloc::{AllocError, Global};
use transcript_text::name::{Name, named};

impl Account {
    /// Reads the next entry from a line of the log, if the line tells it, and applies it to the table.
    pub(crate) fn read_entry(&mut self, line: &[u8]) -> Result<Option<Entry>, AllocError>
        requires low { All (λ count. count < 2 ^ 62) (account_of self.old).table.counts }
        ensures { IfOk result (HasReadEntry (account_of self.old) line.now (account_of self.new)) }
    {
        match named(line) {
            None => Ok(None),
            Some((name, _)) => self.read_named(name, line),
        }
    }

    /// The same of a line with this name.
    fn read_named(&mut self, name: Name, line: &[u8]) -> Result<Option<Entry>, AllocError>
        requires low { All (λ count. count < 2 ^ 62) (account_of self.old).table.counts }
        requires name { FitsName name }
        requires front { IsFrontOf (text_of_name name) line.now }
        ensures { IfOk result (HasReadEntry (account_of self.old) line.now (account_of self.new)) }
    {
        match open_call(calls_of(&self.calls, name.caller), name.call)? {
            None => Ok(None),
            Some(op) => self.apply(name, op, line),
        }
    }

    /// Applies the op of a call to the table, and compares its entry with a line.
    fn apply(&mut self, name: Name, op: Op, line: &[u8]) -> Result<Option<Entry>, AllocError>
        requires low { All (λ count. count < 2 ^ 62) (account_of self.old).table.counts }
        ensures { IfOk result (HasAppliedOp (account_of self.old) name op line.now (account_of self.new)) }
    {
        match self.table.apply(&op) {
            Ok(reply) => {
                fits(&reply);
                let entry = Entry {
                    caller: name.caller,
                    call: name.call,
                    op,
                    reply,
                };
                entry_told(self.alloc, entry, line)
            }
            Err(want) => {
                drop(op);
                Err(want)
            }
        }
    }
}

/// The entry, if a line is its text.
fn entry_told(alloc: Global, entry: Entry, line: &[u8]) -> Result<Option<Entry>, AllocError>
    ensures { IfOk result (IsEntryTold entry line.now) }
{
    match is_entry_text(alloc, &entry, line) {
        Ok(true) => Ok(Some(entry)),
        Ok(false) => {
            drop(entry);
            Ok(None)
        }
        Err(want) => {
            drop(entry);
            Err(want)
        }
    }
}

/// Whether a line is the text of an entry.
fn is_entry_text(alloc: Global, entry: &Entry, line: &[u8]) -> Result<bool, AllocError>
    ensures { IfOk result (λ yes. IsTrue yes ↔ (line.now ≡ entry_text entry.now)) }
{
    Ok(write_entry(alloc, entry)?.as_slice() == line)
}

/// The op of a call that may take effect and isn't logged yet.
fn open_call(calls: &[Call], call: u64) -> Result<Option<Op>, AllocError>
    ensures { IfOk result (λ op. op ≡ option_and_then open_op (slice_get calls.now call)) }
{
    match calls.get(call as usize) {
        Some(call) => op_of(call),
        None => Ok(None),
    }
}

fn op_of(call: &Call) -> Result<Option<Op>, AllocError>
    ensures { IfOk result (λ op. op ≡ open_op call.now) }
{
    if call.taken && call.reply.is_none() {
        return Ok(Some(call.op.clone()?));
    }
    Ok(None)
}
