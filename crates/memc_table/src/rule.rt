ghost use Rattle.std.specs.Prelude.{◌≡◌, ◌≤◌, ◌<◌, ◌+◌, ◌^◌, ◌++◌, IfOk, OnErr, option_copied};
ghost use Rattle.std.specs.Fmt.{decimal};
ghost use Rattle.memc_table.specs.Ruling.{HoldsItem, ruling_of, anew, touched, changed, joined, counted, raised, lowered};
ghost use Rattle.memc_table.specs.Numeral.{number_of};
ghost use Rattle.memc_table.specs.declared.ruling.Ruling.TheVariants.{Accepted};
ghost use Rattle.memc_table.specs.declared.reply.Reply.TheVariants.{Deleted};

use crate::act::Act;
use crate::expiry::until;
use crate::holding::Holding;
use crate::numeral::number;
use crate::op::Op;
use crate::reply::{Item, Reply};
use crate::ruling::Ruling;
use group_types::Payload;
use std::alloc::{AllocError, Global};

/// The longest value, in bytes.
pub const LONGEST_VALUE: usize = 1_048_576;

/// What comes of an op on a key with this live item, where an accepted op is update `number` of
/// the key's partition (the reply table of memcached's protocol).
pub fn rule(
    alloc: Global,
    op: &Op,
    number: u64,
    live: Option<&Holding>,
) -> Result<Ruling, AllocError>
    ensures ruling { IfOk result (λ ruling. ruling ≡ ruling_of op.now.moment number op.now.act (option_copied live.entry)) }
    ensures wanted { OnErr result (HoldsItem (ruling_of op.now.moment number op.now.act (option_copied live.entry))) }
{
    match live {
        None => rule_absent(op, number),
        Some(held) => rule_present(alloc, op, number, held),
    }
}

fn rule_absent(op: &Op, number: u64) -> Result<Ruling, AllocError>
    ensures ruling { IfOk result (λ ruling. ruling ≡ ruling_of op.now.moment number op.now.act None) }
    ensures wanted { OnErr result (HoldsItem (ruling_of op.now.moment number op.now.act None)) }
{
    match op.act() {
        Act::Get { .. } => Ok(Ruling::Refused(Reply::Miss)),
        Act::Set {
            flags,
            expiry,
            value,
            ..
        }
        | Act::Add {
            flags,
            expiry,
            value,
            ..
        } => store(op.now(), number, *flags, *expiry, value),
        Act::Replace { .. } | Act::Append { .. } | Act::Prepend { .. } => {
            Ok(Ruling::Refused(Reply::NotStored))
        }
        Act::Cas { .. }
        | Act::Delete { .. }
        | Act::Touch { .. }
        | Act::Incr { .. }
        | Act::Decr { .. } => Ok(Ruling::Refused(Reply::NotFound)),
    }
}

fn rule_present(alloc: Global, op: &Op, number: u64, held: &Holding) -> Result<Ruling, AllocError>
    ensures ruling { IfOk result (λ ruling. ruling ≡ ruling_of op.now.moment number op.now.act (Some held.now)) }
    ensures wanted { OnErr result (HoldsItem (ruling_of op.now.moment number op.now.act (Some held.now))) }
{
    let own = held.item.value.bytes();
    match op.act() {
        Act::Get { .. } => Ok(Ruling::Refused(Reply::Value(held.item.clone()?))),
        Act::Cas { cas, .. } if held.item.cas != *cas => Ok(Ruling::Refused(Reply::Exists)),
        Act::Set {
            flags,
            expiry,
            value,
            ..
        }
        | Act::Replace {
            flags,
            expiry,
            value,
            ..
        }
        | Act::Cas {
            flags,
            expiry,
            value,
            ..
        } => store(op.now(), number, *flags, *expiry, value),
        Act::Add { .. } => Ok(Ruling::Refused(Reply::NotStored)),
        Act::Delete { .. } => Ok(delete()),
        Act::Touch { expiry, .. } => touch(op.now(), held, *expiry),
        Act::Append { value, .. } => join(alloc, number, held, own, value.bytes()),
        Act::Prepend { value, .. } => join(alloc, number, held, value.bytes(), own),
        Act::Incr { by, .. } => raise(alloc, number, held, *by),
        Act::Decr { by, .. } => lower(alloc, number, held, *by),
    }
}

fn delete() -> Ruling
    ensures { result ≡ Accepted Deleted None }
{
    Ruling::Accepted {
        reply: Reply::Deleted,
        leaves: None,
    }
}

fn store(
    now: u64,
    number: u64,
    flags: u32,
    expiry: i64,
    value: &Payload,
) -> Result<Ruling, AllocError>
    requires { now ≤ 2 ^ 62 }
    ensures { IfOk result (λ ruling. ruling ≡ anew now number flags expiry value.now) }
{
    let item = Item {
        flags,
        cas: number,
        value: value.clone()?,
    };
    let until = until(expiry, now);
    Ok(Ruling::Accepted {
        reply: Reply::Stored,
        leaves: Some(Holding { item, until }),
    })
}

fn touch(now: u64, held: &Holding, expiry: i64) -> Result<Ruling, AllocError>
    requires { now ≤ 2 ^ 62 }
    ensures { IfOk result (λ ruling. ruling ≡ touched now held.now expiry) }
{
    let item = held.item.clone()?;
    let until = until(expiry, now);
    Ok(Ruling::Accepted {
        reply: Reply::Touched,
        leaves: Some(Holding { item, until }),
    })
}

/// The item with another value.
fn change(number: u64, held: &Holding, value: Vec<u8>) -> Result<Option<Holding>, AllocError>
    ensures { IfOk result (λ leaves. leaves ≡ changed number held.now value.items) }
{
    let item = Item {
        flags: held.item.flags,
        cas: number,
        value: Payload::from_vec(value)?,
    };
    Ok(Some(Holding {
        item,
        until: held.until,
    }))
}

fn join(
    alloc: Global,
    number: u64,
    held: &Holding,
    front: &[u8],
    back: &[u8],
) -> Result<Ruling, AllocError>
    ensures ruling { IfOk result (λ ruling. ruling ≡ joined number held.now (front.now ++ back.now)) }
    ensures wanted { OnErr result (HoldsItem (joined number held.now (front.now ++ back.now))) }
{
    if LONGEST_VALUE < front.len() + back.len() {
        return Ok(Ruling::Refused(Reply::TooLarge));
    }
    let mut value = Vec::from_slice(alloc, front)?;
    value.extend_from_slice(back)?;
    Ok(Ruling::Accepted {
        reply: Reply::Stored,
        leaves: change(number, held, value)?,
    })
}

fn raise(alloc: Global, update: u64, held: &Holding, by: u64) -> Result<Ruling, AllocError>
    ensures ruling { IfOk result (λ ruling. ruling ≡ raised update held.now by (number_of held.now.item.value)) }
    ensures wanted { OnErr result (HoldsItem (raised update held.now by (number_of held.now.item.value))) }
{
    match number(held.item.value.bytes()) {
        Some(value) => count(alloc, update, held, value.wrapping_add(by)),
        None => Ok(Ruling::Refused(Reply::NotNumber)),
    }
}

fn lower(alloc: Global, update: u64, held: &Holding, by: u64) -> Result<Ruling, AllocError>
    ensures ruling { IfOk result (λ ruling. ruling ≡ lowered update held.now by (number_of held.now.item.value)) }
    ensures wanted { OnErr result (HoldsItem (lowered update held.now by (number_of held.now.item.value))) }
{
    match number(held.item.value.bytes()) {
        Some(value) => count(alloc, update, held, value.saturating_sub(by)),
        None => Ok(Ruling::Refused(Reply::NotNumber)),
    }
}

fn count(alloc: Global, number: u64, held: &Holding, to: u64) -> Result<Ruling, AllocError>
    ensures { IfOk result (λ ruling. ruling ≡ counted number held.now to) }
{
    let digits = format!(in alloc; "{to}")?;
    Ok(Ruling::Accepted {
        reply: Reply::Number(to),
        leaves: change(number, held, digits.into_bytes())?,
    })
}
