ghost use Rattle.std.specs.Prelude.{◌≡◌, ◌≤◌, ◌+◌, ◌==◌, ◌&&◌, ℕ, List, IfOk};
ghost use Rattle.std.specs.Option.{unwrap_or};
ghost use Rattle.group_types.specs.Lists.{at};
ghost use Rattle.group_calls.specs.Turns.{name_of};
ghost use Rattle.group_eras.specs.Told.{based_reply, op_out};
ghost use Rattle.group_regroup.specs.Kept.{covers, entry_of_era, op_asked};

use crate::changing::{Lowered, base_of};
use group_calls::Entry;
use group_types::home;
use memc_table::{Act, Item, Op, Reply};
use std::alloc::AllocError;

/// An entry at a place of the current world's log, as it is told. A number of more than 64 bits is told as want of
/// memory.
pub(crate) fn told_at(
    bases: &[u64],
    k: u32,
    lowered: &[Lowered],
    place: usize,
    entry: &Entry,
) -> Result<Entry, AllocError>
    requires { 1 ≤ k }
    ensures { IfOk result (λ told. told ≡ entry_of_era bases.now k lowered.now place entry.now) }
{
    let base = base_of(bases, home(entry.op.act().key(), k).0);
    let reply = told_reply(base, &entry.reply)?;
    let op = told_op(bases, k, lowered, place, entry)?;
    Ok(Entry {
        caller: entry.caller,
        call: entry.call,
        op,
        reply,
    })
}

// The op of an entry as it was asked.
fn told_op(
    bases: &[u64],
    k: u32,
    lowered: &[Lowered],
    place: usize,
    entry: &Entry,
) -> Result<Op, AllocError>
    requires { 1 ≤ k }
    ensures { IfOk result (λ op. op ≡ unwrap_or (op_asked lowered.now place (name_of entry.now))
        (op_out bases.now k entry.now.op)) }
{
    'lowered: for asked in lowered {
        if covers(asked, place, entry) {
            return asked.op.clone();
        }
    }
    raised(bases, k, &entry.op)
}

// Whether it is the call of the entry, and the event that asked it logged the entry at the place.
fn covers(asked: &Lowered, place: usize, entry: &Entry) -> bool
    ensures { result ≡ covers asked.now place (name_of entry.now) }
{
    asked.from <= place && place < asked.until && is_call(asked, entry)
}

fn is_call(asked: &Lowered, entry: &Entry) -> bool
    ensures { result ≡ (asked.now.caller == entry.now.caller && asked.now.call == entry.now.call) }
{
    asked.caller == entry.caller && asked.call == entry.call
}

// An op of the current world, whose cas number has the base added.
fn raised(bases: &[u64], k: u32, op: &Op) -> Result<Op, AllocError>
    requires { 1 ≤ k }
    ensures { IfOk result (λ raised. raised ≡ op_out bases.now k op.now) }
{
    match op.act() {
        Act::Cas {
            key,
            flags,
            expiry,
            cas,
            value,
        } => {
            let base = base_of(bases, home(key, k).0);
            let cas = base.checked_add(*cas).ok_or(AllocError)?;
            let key = key.clone()?;
            let value = value.clone()?;
            let act = Act::Cas {
                key,
                flags: *flags,
                expiry: *expiry,
                cas,
                value,
            };
            Ok(Op::new(op.now(), act))
        }
        _ => op.clone(),
    }
}

// A reply whose cas number has the base added.
fn told_reply(base: u64, reply: &Reply) -> Result<Reply, AllocError>
    ensures { IfOk result (λ told. (bases : List ℕ) (d : ℕ) → at 0 bases d ≡ base
        → told ≡ based_reply bases d reply.now) }
{
    match reply {
        Reply::Value(item) => {
            let cas = base.checked_add(item.cas).ok_or(AllocError)?;
            let value = item.value.clone()?;
            Ok(Reply::Value(Item {
                flags: item.flags,
                cas,
                value,
            }))
        }
        _ => reply.clone(),
    }
}
