use member_machine::MemberEnd;

/// A run of a member that ended.
#[derive(Clone, Copy, Debug)]
pub struct MemberRun {
    /// The member's index in its group.
    pub own: u32,
    /// How it ended.
    pub end: MemberEnd,
}
