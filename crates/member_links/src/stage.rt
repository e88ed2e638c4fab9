/// How far a link to another member is.
#[derive(Clone, Copy, Debug, PartialEq, Eq)]
pub(crate) enum Stage {
    /// There is none yet.
    Absent,
    /// It is being connected, or the other's greeting is waited for.
    Greeting,
    /// Frames come and go.
    Up,
    /// It broke, and is never mended.
    Broken,
    /// The other member was cut.
    Cut,
    /// It is this member itself.
    Own,
}
