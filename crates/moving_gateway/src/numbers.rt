// How cas numbers come in and are told.
ghost use Rattle.std.specs.Prelude.{◌≡◌, ◌≤◌, IfOk};
ghost use Rattle.group_types.specs.Lists.{at};
ghost use Rattle.group_eras.specs.Told.{op_for_era};
ghost use Rattle.group_run.specs.Deciding.{is_get};
ghost use Rattle.moving_gateway.specs.Told.{end_told, item_told};

use group_types::home;
use memc_proto::CallEnd;
use memc_table::{Act, Item, Op, Reply};
use std::alloc::AllocError;

/// Whether an act is a get: any other may change an item.
pub(crate) fn is_get(act: &Act) -> bool
    ensures { result ≡ is_get act.now }
{
    matches!(act, Act::Get { .. })
}

/// The base of a partition.
pub(crate) fn base_of(bases: &[u64], partition: u32) -> u64
    ensures { result ≡ at 0 bases.now partition }
{
    let place = partition as usize;
    if place < bases.len() { bases[place] } else { 0 }
}

/// The op as the inner gateway makes it, of a group of k partitions: the base is taken off the cas number that it brings.
pub(crate) fn lowered(bases: &[u64], k: u32, op: Op) -> Result<Op, AllocError>
    requires { 1 ≤ k }
    ensures { IfOk result (λ lowered. lowered ≡ op_for_era bases.now k op) }
{
    match op.act() {
        Act::Cas {
            key,
            flags,
            expiry,
            cas,
            value,
        } => {
            let base = base_of(bases, home(key, k).0);
            let act = Act::Cas {
                key: key.clone()?,
                flags: *flags,
                expiry: *expiry,
                cas: cas.saturating_sub(base),
                value: value.clone()?,
            };
            Ok(Op::new(op.now(), act))
        }
        _ => Ok(op),
    }
}

/// The end of a call on a key of a partition, as it is told.
pub(crate) fn end_told(bases: &[u64], partition: u32, end: CallEnd) -> CallEnd
    ensures { result ≡ end_told bases.now partition end }
{
    match end {
        CallEnd::Reply(Reply::Value(item)) => item_told(base_of(bases, partition), item),
        end => end,
    }
}

/// An item with the base added to its cas number: where that has more than 64 bits it can't be told.
fn item_told(base: u64, item: Item) -> CallEnd
    ensures { result ≡ item_told base item }
{
    match base.checked_add(item.cas) {
        Some(cas) => CallEnd::Reply(Reply::Value(Item { cas, ..item })),
        None => CallEnd::Worn,
    }
}
