ghost use Rattle.std.specs.Prelude.{List, ◌≡◌, ◌≤◌, ◌<◌, ◌+◌, ◌%◌, ◌^◌, [], All, length, IfOk, OnOk};
ghost use Rattle.erasure_code.specs.Code.{coded, coefficient};
ghost use Rattle.erasure_code.specs.Spaces.{bytes_at};
ghost use Rattle.field_byte.specs.Vectors.{add_bytes, scale};
ghost use Rattle.group_types.specs.Lists.{at};
ghost use Rattle.group_types.specs.Dimensions.{space_of};
ghost use Rattle.run_verify.specs.Accounts.{lists_of};
ghost use Rattle.run_verify.specs.Shadows.{AllFollow, IsShadowAt};
ghost use Rattle.run_verify.specs.Showing.{AreBelow, IsFitChange, spaces_in};
ghost use Rattle.run_verify.specs.Updates.{spaces_by};
ghost use Rattle.run_verify.specs.declared.change.Change.{Change};

use crate::change::Change;
use crate::keep::changes_of;
use crate::shadow::Shadow;
use cauchy_code::coefficient;
use group_types::{Run, Shape};
use lane_kernel::mul_add_into;
use std::alloc::{AllocError, Global};

/// So many bytes of shadows are kept, or those of one process.
const ROOM: u64 = 1 << 28;

/// The bytes of a run of a partition's space behind so many of its changes.
pub(crate) fn held_part(
    alloc: Global,
    shape: Shape,
    shadows: &mut Vec<Shadow>,
    changes: &[Vec<Change>],
    partition: u32,
    run: Run,
    number: u64,
) -> Result<Vec<u8>, AllocError>
    requires partition { partition < length changes.now }
    requires partitions { length changes.now ≡ shape.k }
    requires run { run.at + run.len ≤ space_of shape }
    requires number { number ≤ length (at [] (lists_of changes.now) partition) }
    requires fit { All (All (IsFitChange shape)) (lists_of changes.now) }
    requires follow { AllFollow (lists_of changes.now) shadows.old.items }
    ensures follow { AllFollow (lists_of changes.now) shadows.new.items }
    ensures bytes { IfOk result (λ bytes. bytes.items
        ≡ bytes_at run.at run.len (spaces_in shape (lists_of changes.now) partition number)) }
{
    let place = go_to(alloc, shape, shadows, changes, 0, partition, number)?;
    part(alloc, run, &shadows[place].space)
}

/// A part of a space.
fn part(alloc: Global, run: Run, space: &[u8]) -> Result<Vec<u8>, AllocError>
    requires { run.at + run.len ≤ length space.now }
    ensures { IfOk result (λ bytes. bytes.items ≡ bytes_at run.at run.len space.now) }
{
    let from = run.at as usize;
    Vec::from_slice(alloc, &space[from..from + run.len as usize])
}

/// The bytes of a run of the code of parity process `process` over the spaces of all partitions, each behind as many of its
/// changes as the stamp says.
pub(crate) fn coded_part(
    alloc: Global,
    shape: Shape,
    shadows: &mut Vec<Shadow>,
    changes: &[Vec<Change>],
    process: u32,
    run: Run,
    stamp: &[u64],
) -> Result<Vec<u8>, AllocError>
    requires process { process < shape.m }
    requires many { length stamp.now ≡ shape.k }
    requires partitions { length changes.now ≡ shape.k }
    requires run { run.at + run.len ≤ space_of shape }
    requires stamp { AreBelow (lists_of changes.now) 0 stamp.now }
    requires fit { All (All (IsFitChange shape)) (lists_of changes.now) }
    requires follow { AllFollow (lists_of changes.now) shadows.old.items }
    ensures follow { AllFollow (lists_of changes.now) shadows.new.items }
    ensures bytes { IfOk result (λ bytes. bytes.items ≡ bytes_at run.at run.len
        (coded shape.m process (space_of shape) (spaces_by (spaces_in shape (lists_of changes.now)) 0 stamp.now))) }
{
    let mut sum = vec![in alloc; 0; run.len as usize]?;
    let row = process + 1;
    let mut partition: u32 = 0;
    'partitions: while (partition as usize) < stamp.len() {
        let number = stamp[partition as usize];
        let place = go_to(alloc, shape, shadows, changes, row, partition, number)?;
        add_part(
            shape,
            process,
            partition,
            run,
            &shadows[place].space,
            &mut sum,
        );
        partition += 1;
    }
    Ok(sum)
}

/// Adds a part of the space of a partition, times the coefficient of a parity process.
fn add_part(shape: Shape, process: u32, partition: u32, run: Run, space: &[u8], sum: &mut Vec<u8>)
    requires process { process < shape.m }
    requires partition { partition < shape.k }
    requires run { run.at + run.len ≤ length space.now }
    requires sum { length sum.old.items ≡ run.len }
    ensures sum { sum.new.items ≡ add_bytes sum.old.items
        (scale (coefficient shape.m process partition) (bytes_at run.at run.len space.now)) }
    ensures long { length sum.new.items ≡ run.len }
{
    let _partitions = shape.k();
    let from = run.at as usize;
    let bytes = &space[from..from + run.len as usize];
    mul_add_into(coefficient(shape.m(), process, partition), bytes, sum);
}

/// Moves the shadow that a row of shadows has for a partition to the space behind so many changes, and tells its place.
fn go_to(
    alloc: Global,
    shape: Shape,
    shadows: &mut Vec<Shadow>,
    changes: &[Vec<Change>],
    row: u32,
    partition: u32,
    number: u64,
) -> Result<usize, AllocError>
    requires partition { partition < length changes.now }
    requires partitions { length changes.now ≡ shape.k }
    requires number { number ≤ length (at [] (lists_of changes.now) partition) }
    requires fit { All (All (IsFitChange shape)) (lists_of changes.now) }
    requires follow { AllFollow (lists_of changes.now) shadows.old.items }
    ensures follow { AllFollow (lists_of changes.now) shadows.new.items }
    ensures there { IfOk result (IsShadowAt shape (lists_of changes.now) partition number shadows.new.items) }
{
    let place = place_for(shape, row, partition);
    grow(alloc, shadows, place)?;
    shadows[place].go(alloc, shape, changes_of(changes, partition), number)?;
    Ok(place)
}

/// The place of the shadow that a row has for a partition. Rows share their shadows where there isn't room for all.
fn place_for(shape: Shape, row: u32, partition: u32) -> usize
    requires { partition < shape.k }
    ensures { result % 16 ≡ partition }
{
    let each = u64::from(shape.k()) * u64::from(shape.space());
    let rows = ROOM / each + 1;
    (u64::from(row) % rows) as usize * 16 + partition as usize
}

/// Makes room for a shadow at this place.
fn grow(alloc: Global, shadows: &mut Vec<Shadow>, place: usize) -> Result<(), AllocError>
    ensures follow { (changes : List (List Change)) → AllFollow changes shadows.old.items
        → AllFollow changes shadows.new.items }
    ensures there { OnOk result (place < length shadows.new.items) }
{
    'shadows: while shadows.len() <= place {
        shadows.push(Shadow::new(alloc))?;
    }
    Ok(())
}
