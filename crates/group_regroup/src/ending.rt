ghost use Rattle.std.specs.Prelude.{◌≡◌, ◌≤◌, ◌<◌, ℕ, length, map, count_by, IfOk};
ghost use Rattle.std.specs.List.{range_with_len};
ghost use Rattle.group_types.specs.Lists.{at};
ghost use Rattle.group_calls.specs.Turns.{accepts};
ghost use Rattle.group_run.specs.Meaning.{is_update_of};
ghost use Rattle.group_regroup.specs.Kept.{entries_from};

use crate::changing::Lowered;
use crate::entries::told_at;
use group_calls::Entry;
use group_types::home;
use memc_table::Reply;
use std::alloc::{AllocError, Global};

/// The log of an era that ends, as it is told.
pub(crate) fn told_log(
    alloc: Global,
    bases: &[u64],
    k: u32,
    lowered: &[Lowered],
    log: &[Entry],
) -> Result<Vec<Entry>, AllocError>
    requires { 1 ≤ k }
    ensures { IfOk result (λ told. told.items ≡ entries_from bases.now k lowered.now 0 log.now) }
{
    let mut told = Vec::with_capacity(alloc, log.len())?;
    'places: for place in 0..log.len() {
        let entry = told_at(bases, k, lowered, place, &log[place])?;
        told.push(entry)?;
    }
    Ok(told)
}

/// How many updates of a partition a log has.
pub(crate) fn updates(k: u32, partition: u32, log: &[Entry]) -> usize
    requires { 1 ≤ k }
    ensures { result ≡ count_by (is_update_of k partition) log.now }
{
    let mut count: usize = 0;
    'entries: for entry in log {
        if is_update(k, partition, entry) {
            count += 1;
        }
    }
    count
}

fn is_update(k: u32, partition: u32, entry: &Entry) -> bool
    requires { 1 ≤ k }
    ensures { result ≡ is_update_of k partition entry.now }
{
    if !accepts(&entry.reply) {
        return false;
    }
    home(entry.op.act().key(), k).0 == partition
}

fn accepts(reply: &Reply) -> bool
    ensures { result ≡ accepts reply.now }
{
    match reply {
        Reply::Stored | Reply::Deleted | Reply::Touched | Reply::Number(_) => true,
        Reply::Value(_)
        | Reply::Miss
        | Reply::NotStored
        | Reply::Exists
        | Reply::NotFound
        | Reply::NotNumber
        | Reply::TooLarge => false,
    }
}
