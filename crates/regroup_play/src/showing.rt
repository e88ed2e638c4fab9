ghost use Rattle.std.specs.Prelude.{◌≡◌, ◌≤◌, ◌+◌, ◌<◌, ◌++◌, ◌∷◌, [], length, IfOk};
ghost use Rattle.group_types.specs.Dimensions.{space_of};
ghost use Rattle.group_types.specs.Names.{IsProcess};
ghost use Rattle.group_eras.specs.Eras.{stamp_from, stamp_in};
ghost use Rattle.group_eras.specs.Told.{told_stamp, with_base};
ghost use Rattle.group_run.specs.Shown.{held};
ghost use Rattle.regroup_run.specs.Playing.{look};

use group_regroup::Regroup;
use group_types::{Partition, ProcessId, Run};
use scenario_text::write_shown::write_shown;
use std::alloc::{AllocError, Global};

/// What a process shows, on a line.
pub(crate) fn write_look_line(
    alloc: Global,
    regroup: &Regroup,
    at: ProcessId,
    run: Run,
) -> Result<Vec<u8>, AllocError>
    requires process { IsProcess regroup.now.world.shape at }
    requires run { run.at + run.len ≤ space_of regroup.now.world.shape }
    ensures { IfOk result (λ text. text.items ≡ look regroup.now at (held regroup.now.world at run) ++ 10 ∷ []) }
{
    let mut text = write_look(alloc, regroup, at, run)?;
    text.push(b'\n')?;
    Ok(text)
}

/// The bytes of a run of a process's space, with its stamp as it is told; or that the group is down, or the process
/// lost.
fn write_look(
    alloc: Global,
    regroup: &Regroup,
    at: ProcessId,
    run: Run,
) -> Result<Vec<u8>, AllocError>
    requires process { IsProcess regroup.now.world.shape at }
    requires run { run.at + run.len ≤ space_of regroup.now.world.shape }
    ensures { IfOk result (λ text. text.items ≡ look regroup.now at (held regroup.now.world at run)) }
{
    if regroup.world().is_down() {
        return Vec::from_slice(alloc, b"down");
    }
    if regroup.world().is_dead(at) {
        return Vec::from_slice(alloc, b"lost");
    }
    let stamp = told_stamp(alloc, regroup, at)?;
    let bytes = regroup.world().bytes(at, run)?;
    write_shown(alloc, &stamp, bytes.bytes())
}

/// The stamp of a process, as it is told.
fn told_stamp(alloc: Global, regroup: &Regroup, at: ProcessId) -> Result<Vec<u64>, AllocError>
    requires process { IsProcess regroup.now.world.shape at }
    ensures { IfOk result (λ stamp. stamp.items ≡ stamp_in regroup.now at) }
{
    let stamp = regroup.world().stamp(at)?;
    raised(alloc, regroup, first_of(at), &stamp)
}

/// The partition of a stamp's first number.
fn first_of(at: ProcessId) -> u32
    ensures { result ≡ stamp_from at }
{
    match at {
        ProcessId::DataNode(partition) => partition,
        ProcessId::ParityNode(_) => 0,
    }
}

/// Numbers of the partitions from this one on, with their bases.
fn raised(
    alloc: Global,
    regroup: &Regroup,
    first: u32,
    numbers: &[u64],
) -> Result<Vec<u64>, AllocError>
    requires { first + length numbers.now ≤ regroup.now.world.shape.k }
    ensures { IfOk result (λ told. told.items ≡ told_stamp regroup.now.bases first numbers.now) }
{
    regroup.world().run();
    let mut told = Vec::new(alloc);
    let mut partition = first;
    'numbers: for number in numbers {
        told.push(with_base(regroup, partition, *number)?)?;
        partition += 1;
    }
    Ok(told)
}

/// A number of a partition with its base. One of more than 64 bits is told as want of memory.
pub(crate) fn with_base(regroup: &Regroup, partition: u32, number: u64) -> Result<u64, AllocError>
    requires { partition < regroup.now.world.shape.k }
    ensures { IfOk result (λ told. told ≡ with_base regroup.now.bases partition number) }
{
    match regroup.base(Partition(partition)).checked_add(number) {
        Some(told) => Ok(told),
        None => Err(AllocError),
    }
}
