ghost use Rattle.std.specs.Prelude.{◌≡◌, ◌≤◌, ◌++◌, drop, IfOk};
ghost use Rattle.group_regroup.specs.Kept.{entries_from};
ghost use Rattle.group_regroup.specs.Last.{entries_of_era};

use crate::changing::Lowered;
use crate::entries::told_at;
use crate::log::copy;
use crate::regroup::Regroup;
use group_calls::Entry;
use std::alloc::{AllocError, Global};

impl Regroup {
    /// The number of the current era.
    pub fn era(&self) -> usize
        ensures { result ≡ self.now.era }
    {
        self.past.len()
    }

    /// The entries of an era's log from a place on, as they are told. A number of more than 64 bits is told as want of
    /// memory.
    pub fn told(&self, era: usize, from: usize) -> Result<Vec<Entry>, AllocError>
        requires { era ≤ self.now.era }
        ensures { IfOk result (λ entries. entries.items ≡ drop from (entries_of_era era self.now.log)) }
    {
        if era < self.past.len() {
            return copies(self.alloc, &self.past[era], from);
        }
        let k = self.world.shape().k();
        told_since(
            self.alloc,
            &self.bases,
            k,
            &self.lowered,
            self.world.log(),
            from,
        )
    }
}

// The entries of a log from a place on.
fn copies(alloc: Global, log: &[Entry], from: usize) -> Result<Vec<Entry>, AllocError>
    ensures { IfOk result (λ entries. entries.items ≡ drop from log.now) }
{
    let mut entries = Vec::new(alloc);
    'places: for place in from..log.len() {
        entries.push(copy(&log[place])?)?;
    }
    Ok(entries)
}

// The entries of the current world's log from a place on, as they are told.
fn told_since(
    alloc: Global,
    bases: &[u64],
    k: u32,
    lowered: &[Lowered],
    log: &[Entry],
    from: usize,
) -> Result<Vec<Entry>, AllocError>
    requires { 1 ≤ k }
    ensures { IfOk result (λ entries. entries.items ≡ drop from (entries_from bases.now k lowered.now 0 log.now)) }
{
    let mut told = Vec::new(alloc);
    'places: for place in from..log.len() {
        told.push(told_at(bases, k, lowered, place, &log[place])?)?;
    }
    Ok(told)
}
