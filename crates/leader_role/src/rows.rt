ghost use Rattle.std.specs.Prelude.{◌≡◌, IfOk};
ghost use Rattle.group_run.specs.Leaders.{lost_of, rows_of};
ghost use Rattle.group_run.specs.Process.{Process};
ghost use Rattle.leader_role.specs.Starting.{living_parity};

use group_types::{ProcessId, Shape};
use membership::Members;
use std::alloc::{AllocError, Global};

/// The partitions whose data processes are known dead, in order: a session rebuilds a block of each.
pub fn lost(alloc: Global, shape: Shape, known: &Members) -> Result<Vec<u32>, AllocError>
    ensures { IfOk result (λ lost. (p : Process) → p.known ≡ known.now → lost.items ≡ lost_of shape p) }
{
    let mut dead = Vec::new(alloc);
    'partitions: for d in 0..shape.k() {
        if !known.is_dead(ProcessId::DataNode(d)) {
            continue;
        }
        dead.push(d)?;
    }
    Ok(dead)
}

/// The rows of a session: of the parity processes that aren't known dead the lowest, as many as are lost.
pub fn rows(alloc: Global, shape: Shape, known: &Members) -> Result<Vec<u32>, AllocError>
    ensures { IfOk result (λ rows. (p : Process) → p.known ≡ known.now → rows.items ≡ rows_of shape p) }
{
    let lost = lost(alloc, shape, known)?;
    let mut rows = living_parity(alloc, shape, known)?;
    rows.truncate(lost.len());
    Ok(rows)
}

fn living_parity(alloc: Global, shape: Shape, known: &Members) -> Result<Vec<u32>, AllocError>
    ensures { IfOk result (λ living. living.items ≡ living_parity shape known.now) }
{
    let mut living = Vec::new(alloc);
    'parities: for i in 0..shape.m() {
        if known.is_dead(ProcessId::ParityNode(i)) {
            continue;
        }
        living.push(i)?;
    }
    Ok(living)
}
