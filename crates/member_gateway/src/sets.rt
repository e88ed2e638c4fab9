//! Sets of processes, by index.
ghost use Rattle.std.specs.Prelude.{◌≡◌, ◌+◌, ◌≤◌};

use group_node::process_at;
use group_types::{ProcessId, Shape};
use link_frames::NameSet;
use membership::Members;

/// How many processes a group has.
pub(crate) fn many(shape: Shape) -> u32
    ensures many { result ≡ shape.k + shape.m }
    ensures few { result ≤ 20 }
{
    shape.k() + shape.m()
}

/// The index of a process, in the order of processes.
pub(crate) fn place_of(shape: Shape, name: ProcessId) -> u32 {
    match name {
        ProcessId::DataNode(d) => d,
        ProcessId::ParityNode(i) => shape.k().wrapping_add(i),
    }
}

/// Whether the process at an index is one of a set.
pub(crate) fn has(set: u32, x: u32) -> bool {
    x < 32 && set >> x & 1 == 1
}

/// All processes of a group.
pub(crate) fn all(shape: Shape) -> u32 {
    let mut set = 0;
    'names: for x in 0..many(shape) {
        set = with(set, x);
    }
    set
}

/// The index of the first process of a set.
pub(crate) fn first(set: u32) -> Option<u32> {
    if set == 0 {
        return None;
    }
    Some(set.trailing_zeros())
}

/// The set with the process at an index.
pub(crate) fn with(set: u32, x: u32) -> u32 {
    if 32 <= x {
        return set;
    }
    set | 1 << x
}

/// The set without it.
pub(crate) fn without(set: u32, x: u32) -> u32 {
    set & !with(0, x)
}

/// The processes of a set, as those of a group that are known dead.
pub(crate) fn members_of(shape: Shape, set: u32) -> Members {
    let mut members = Members::new(shape);
    'names: for x in 0..many(shape) {
        if has(set, x) {
            let _ = members.fail(process_at(shape, x));
        }
    }
    members
}

/// Those of a group that are known dead, as a link says them.
pub(crate) fn names_of(shape: Shape, members: &Members) -> NameSet {
    let mut set = 0;
    'names: for x in 0..many(shape) {
        if members.is_dead(process_at(shape, x)) {
            set = with(set, x);
        }
    }
    NameSet(set)
}
