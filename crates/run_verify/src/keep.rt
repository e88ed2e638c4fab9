ghost use Rattle.std.specs.Prelude.{◌≡◌, ◌<◌, ◌^◌, ◌++◌, ◌∷◌, [], length, IfOk, OnOk, option_copied};
ghost use Rattle.group_types.specs.Lists.{at, put};
ghost use Rattle.group_calls.specs.Turns.{accepts};
ghost use Rattle.run_verify.specs.Accounts.{account_of, lists_of};
ghost use Rattle.run_verify.specs.Keeping.{HasChanged, HasEffect, IsEntryKept, IsValueWritten};
ghost use Rattle.run_verify.specs.Passing.{value_in, with_reply};
ghost use Rattle.run_verify.specs.Shadows.{AreMore};

use crate::account::Account;
use crate::call::Call;
use crate::change::{Change, Effect};
use crate::places::Places;
use group_calls::Entry;
use group_types::{Key, Partition, Payload, Shape, home};
use memc_table::{Act, Holding, Reply};
use std::alloc::{AllocError, Global};

impl Account {
    /// Keeps what an entry does that was applied to the table.
    pub(crate) fn keep(
        &mut self,
        shape: Shape,
        places: &Places,
        entry: Entry,
    ) -> Result<(), AllocError>
        requires entries { self.old.entries < 2 ^ 62 }
        requires caller { entry.caller < 256 }
        requires call { entry.call < length (at [] (account_of self.old).calls entry.caller) }
        requires partitions { length self.old.changes.items ≡ shape.k }
        ensures kept { OnOk result (IsEntryKept shape places.now (account_of self.old) entry (account_of self.new)) }
        ensures partitions { length self.new.changes.items ≡ length self.old.changes.items }
    {
        let kept = self.keep_change(shape, places, &entry);
        let Entry {
            caller,
            call,
            op,
            reply,
        } = entry;
        drop(op);
        match kept {
            Ok(()) => {
                set_reply(&mut self.calls, caller, call, reply);
                self.entries += 1;
                Ok(())
            }
            Err(want) => {
                drop(reply);
                Err(want)
            }
        }
    }

    /// Keeps the change that an entry makes, if it is accepted.
    fn keep_change(
        &mut self,
        shape: Shape,
        places: &Places,
        entry: &Entry,
    ) -> Result<(), AllocError>
        requires partitions { length self.old.changes.items ≡ shape.k }
        ensures changed { OnOk result (HasChanged shape places.now (account_of self.old) entry.now
            (account_of self.new)) }
        ensures partitions { length self.new.changes.items ≡ length self.old.changes.items }
    {
        if !accepts(&entry.reply) {
            return Ok(());
        }
        let partition = home(entry.op.act().key(), shape.k());
        let change = self.change(shape, places, entry, partition)?;
        add_change(&mut self.changes, partition.0, change)
    }

    /// The change that an accepted entry of a partition makes.
    fn change(
        &self,
        shape: Shape,
        places: &Places,
        entry: &Entry,
        partition: Partition,
    ) -> Result<Change, AllocError>
        requires { partition.0 < length self.now.changes.items }
        ensures { IfOk result (HasEffect shape places.now (account_of self.now) entry.now partition.0) }
    {
        let act = entry.op.act();
        let key = act.key().clone()?;
        match act {
            Act::Delete { .. } => Ok(plain(key, Effect::Removes)),
            Act::Touch { .. } => Ok(plain(key, Effect::Keeps)),
            _ => self.written(shape, places, key, partition),
        }
    }

    /// The change that writes the value of a key.
    fn written(
        &self,
        shape: Shape,
        places: &Places,
        key: Key,
        partition: Partition,
    ) -> Result<Change, AllocError>
        requires { partition.0 < length self.now.changes.items }
        ensures { IfOk result (IsValueWritten shape places.now (account_of self.now) key partition.0) }
    {
        let value = value_in(self.alloc, self.table.item(&key))?;
        let number = changes_of(&self.changes, partition.0).len() as u64 + 1;
        let run = places.find(shape, partition.0, number, value.len());
        Ok(Change {
            key,
            effect: Effect::Writes(value, run),
        })
    }
}

fn plain(key: Key, effect: Effect) -> Change
    ensures { result ≡ record { key = key; effect = effect } }
{
    Change { key, effect }
}

/// A reply of the table that accepts an update.
fn accepts(reply: &Reply) -> bool
    ensures { result ≡ accepts reply.now }
{
    matches!(
        reply,
        Reply::Stored | Reply::Deleted | Reply::Touched | Reply::Number(_)
    )
}

/// The value that is held, none where nothing is.
fn value_in(alloc: Global, held: Option<&Holding>) -> Result<Payload, AllocError>
    ensures { IfOk result (λ value. value ≡ value_in (option_copied held.entry)) }
{
    match held {
        Some(holding) => Ok(holding.item.value.clone()?),
        None => Payload::of(alloc, b""),
    }
}

/// The changes of a partition.
#[tactic(auto, using(crate::proofs::Vectors::list_at))]
pub(crate) fn changes_of(changes: &[Vec<Change>], partition: u32) -> &[Change]
    requires { partition < length changes.now }
    ensures { result.now ≡ at [] (lists_of changes.now) partition }
{
    &changes[partition as usize]
}

/// Another change of a partition.
fn add_change(
    changes: &mut Vec<Vec<Change>>,
    partition: u32,
    change: Change,
) -> Result<(), AllocError>
    requires { partition < length changes.old.items }
    ensures changes { OnOk result (lists_of changes.new.items ≡ put [] (lists_of changes.old.items) partition
        (at [] (lists_of changes.old.items) partition ++ change ∷ [])) }
    ensures more { AreMore (lists_of changes.old.items) (lists_of changes.new.items) }
    ensures partitions { length changes.new.items ≡ length changes.old.items }
{
    changes[partition as usize].push(change)?;
    Ok(())
}

/// The reply of a call's entry, which is logged.
fn set_reply(calls: &mut Vec<Vec<Call>>, caller: u32, call: u64, reply: Reply)
    requires caller { caller < length calls.old.items }
    requires call { call < length (at [] (lists_of calls.old.items) caller) }
    ensures calls { lists_of calls.new.items ≡ put [] (lists_of calls.old.items) caller
        (with_reply (at [] (lists_of calls.old.items) caller) call reply) }
    ensures callers { length calls.new.items ≡ length calls.old.items }
{
    reply_at(&mut calls[caller as usize], call, reply);
}

fn reply_at(calls: &mut Vec<Call>, call: u64, reply: Reply)
    requires { call < length calls.old.items }
    ensures { calls.new.items ≡ with_reply calls.old.items call reply }
{
    calls[call as usize].reply = Some(reply);
}
