use crate::base_list::BaseList;
use crate::member_table::MemberTable;
use group_types::Shape;

/// In which order calls are shown to the clients of a group.
#[derive(Clone, Copy, Debug, PartialEq, Eq)]
pub enum CallOrder {
    /// In one order of all calls on all keys.
    Strict,
    /// In one order of all calls on each key.
    Keys,
}

/// How a member of a group runs whose processes stand on machines of their own.
#[derive(Drop)]
pub struct MemberSettings {
    /// What the group is called: 16 bytes, drawn when it is set up.
    pub group: [u8; 16],
    /// The group's shape.
    pub shape: Shape,
    /// The group's members.
    pub members: MemberTable,
    /// The index of this member among them.
    pub own: u32,
    /// In which order calls are shown.
    pub order: CallOrder,
    /// For how many seconds a member that hears nothing of others keeps its clients, 1 to 3600.
    pub patience: u32,
    /// Whether all members are told the same of who is dead.
    pub one_word: bool,
    /// How many groups the members make up, 1 to 16, each with a process of every member.
    pub groups: u32,
    /// The base of each partition, those of the first group first, by which its numbers go on from those of an earlier group: all
    /// 0 where there are none.
    pub base: BaseList,
}
