/// How the run of a member ended.
#[derive(Clone, Copy, Debug, PartialEq, Eq)]
pub enum MemberEnd {
    /// A word with its own name ended it.
    Ended,
    /// Its name was accepted before: a program that was started anew is no member.
    Refused,
    /// What the member at this index said is no frame, has a wrong sum, or can't be.
    Misfit { peer: u32 },
    /// The system failed at what all links need.
    LinkFault,
    /// The system listens at none of its addresses, or not at all of them.
    AddressFault,
    /// There was no memory to begin.
    Want,
}
