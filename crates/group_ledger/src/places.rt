// Per partition the run of each logged update.
ghost use Rattle.std.specs.Prelude.{◌≡◌, ◌≤◌, ◌+◌, [], map, replicate, vec_len, vec_capacity, All, IfOk, OnOk};

use group_types::Run;
use std::alloc::{AllocError, Global};

/// Empty lists of k partitions.
pub(crate) fn no_places(alloc: Global, k: u32) -> Result<Vec<Vec<Option<Run>>>, AllocError>
    ensures { IfOk result (λ places. map (λ p. p.items) places.items ≡ replicate k []) }
{
    let mut places = Vec::with_capacity(alloc, k as usize)?;
    'partitions: for _ in 0..k {
        places.push(Vec::new(alloc))?;
    }
    Ok(places)
}

/// Makes room for this many updates of each partition.
pub(crate) fn reserve_each(places: &mut [Vec<Option<Run>>], room: usize) -> Result<(), AllocError>
    ensures items { map (λ p. p.items) places.new ≡ map (λ p. p.items) places.old }
    ensures ok { OnOk result (All (λ p. vec_len p + room ≤ vec_capacity p) places.new) }
{
    'partitions: for d in 0..places.len() {
        places[d].reserve(room)?;
    }
    Ok(())
}
