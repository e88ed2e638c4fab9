/// What became of a link, for a person to read.
#[derive(Clone, Copy, Debug, PartialEq, Eq)]
pub enum LinkEvent {
    /// The link to the member at this index is there.
    Up(u32),
    /// The link to the member at this index broke.
    Broken(u32),
    /// A program with the name of this index came, which was accepted before: it was told so.
    Again(u32),
    /// A program came that is none of this group's members, or is one of another version or shape.
    Stranger,
}
