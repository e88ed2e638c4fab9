// Where the processes of groups are among members, and how the partitions of all groups are counted.
ghost use Rattle.std.specs.Prelude.{◌≡◌, ◌≤◌, ◌+◌, ◌*◌};
ghost use Rattle.group_layout.specs.Layout.{node_of};

use group_config::MemberSettings;
use group_layout::layout::{node_of, process_on};
use group_types::{Partition, Shape};

/// More groups than there may be.
const MOST_GROUPS: u32 = 16;

/// The index of the member that has the process at an index of a group.
pub(crate) fn member_of(shape: Shape, group: u32, x: u32) -> u32
    ensures { group ≤ 16 → x ≤ 64 → result ≡ node_of (shape.k + shape.m) group x }
{
    node_of(shape.k() + shape.m(), group.min(MOST_GROUPS), x.min(64))
}

/// The index of the process of a group that a member has.
pub(crate) fn process_in(shape: Shape, group: u32, member: u32) -> Option<u32> {
    let count = shape.k() + shape.m();
    process_on(count, count, member, group.min(MOST_GROUPS))
}

/// The index of the process of a group that these settings' own member has.
pub(crate) fn own_in(settings: &MemberSettings, group: u32) -> u32 {
    process_in(settings.shape, group, settings.own).unwrap_or(settings.own)
}

/// The group of a partition, and its number there, by its number among the partitions of all groups.
pub(crate) fn split_number(shape: Shape, number: u32) -> (u32, Partition) {
    (number / shape.k(), Partition(number % shape.k()))
}

/// The number of a partition among those of all groups.
pub(crate) fn number_of(shape: Shape, group: u32, d: u32) -> u32 {
    group.saturating_mul(shape.k()).saturating_add(d)
}
