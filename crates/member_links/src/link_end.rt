/// Why a member has to stop.
#[derive(Clone, Copy, Debug, PartialEq, Eq)]
pub enum LinkEnd {
    /// What the member at this index said can't be.
    Misfit(u32),
    /// What came of the member at this index is no frame with its sum.
    BadFrame(u32),
    /// A frame that is to go to the member at this index has no spelling.
    NoSpelling(u32),
    /// The member at this index accepted this member's name before, or has cut it.
    Refused(u32),
}
