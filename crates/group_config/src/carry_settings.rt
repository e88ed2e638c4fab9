use crate::member_table::MemberTable;

/// How the items of a group over machines are carried into a fresh one.
#[derive(Drop)]
pub struct CarrySettings {
    /// How many data processes each of both groups has, 1 to 16.
    pub k: u32,
    /// Members of the old group: at least k.
    pub from: MemberTable,
    /// Members of the new group: at least k.
    pub to: MemberTable,
    /// How many connections there are for each partition to each of both groups, 1 to 64.
    pub lanes: u32,
}
