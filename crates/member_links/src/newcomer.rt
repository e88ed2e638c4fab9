use crate::pipe::Pipe;
use link_frames::Hello;

/// A connection that came and hasn't greeted yet.
#[derive(Drop)]
pub(crate) struct Newcomer {
    pub(crate) pipe: Pipe,
    /// Until when its greeting is waited for, in milliseconds.
    pub(crate) until: u64,
}

/// A connection that came and greeted.
#[derive(Drop)]
pub struct Greeted {
    pub(crate) pipe: Pipe,
    pub(crate) hello: Hello,
}

/// What came of a connection that hadn't greeted yet.
#[derive(Drop)]
pub enum Guest {
    /// It greeted.
    Greets(Greeted),
    /// It said something else.
    Stranger,
    /// It is waited for, or is gone.
    None,
}
