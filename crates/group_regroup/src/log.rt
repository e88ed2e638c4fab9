ghost use Rattle.std.specs.Prelude.{◌≡◌, ◌≤◌, ℕ, IfOk, slice_get};
ghost use Rattle.std.specs.Option.{option_map};
ghost use Rattle.group_regroup.specs.Kept.{told_from};

use crate::changing::Lowered;
use crate::entries::told_at;
use crate::regroup::Regroup;
use group_calls::Entry;
use std::alloc::AllocError;

impl Regroup {
    /// The entry at a place of the log over all eras, with its era; none behind the end.
    pub fn entry(&self, place: usize) -> Result<Option<(usize, Entry)>, AllocError>
        ensures { IfOk result (λ found. found ≡ slice_get self.now.log place) }
    {
        let k = self.world.shape().k();
        let mut left = place;
        'eras: for era in 0..self.past.len() {
            let log = &self.past[era];
            if left < log.len() {
                let entry = copy(&log[left])?;
                return Ok(Some((era, entry)));
            }
            left -= log.len();
        }
        match told_in(&self.bases, k, &self.lowered, self.world.log(), left)? {
            None => Ok(None),
            Some(entry) => Ok(Some((self.past.len(), entry))),
        }
    }
}

// The entry at a place of the current world's log, as it is told.
fn told_in(
    bases: &[u64],
    k: u32,
    lowered: &[Lowered],
    log: &[Entry],
    place: usize,
) -> Result<Option<Entry>, AllocError>
    requires { 1 ≤ k }
    ensures { IfOk result (λ found. (era : ℕ) → option_map (λ x. (era, x)) found
        ≡ slice_get (told_from bases.now k era lowered.now 0 log.now) place) }
{
    if log.len() <= place {
        return Ok(None);
    }
    let entry = told_at(bases, k, lowered, place, &log[place])?;
    Ok(Some(entry))
}

pub(crate) fn copy(entry: &Entry) -> Result<Entry, AllocError>
    ensures { IfOk result (λ copy. copy ≡ entry.now) }
{
    let reply = entry.reply.clone()?;
    let op = entry.op.clone()?;
    Ok(Entry {
        caller: entry.caller,
        call: entry.call,
        op,
        reply,
    })
}
