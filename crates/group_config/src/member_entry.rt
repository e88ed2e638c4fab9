use crate::address::Address;
use crate::member_name::MemberName;

/// A member of a group, and where it is reached.
#[derive(Drop)]
pub struct MemberEntry {
    /// What it is called.
    pub name: MemberName,
    /// Where other members reach it.
    pub link: Address,
    /// Where clients reach it.
    pub client: Address,
    /// Where an operator on its machine reaches it.
    pub control: Address,
}
