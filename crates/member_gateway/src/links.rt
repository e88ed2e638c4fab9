use group_types::ProcessId;
use link_frames::Frame;
use std::alloc::AllocError;

/// The links of a member to the others of its group, by the index of each, and its operator's words. Frames of one process
/// come in the order in which they were put there.
pub trait Links {
    /// The next frame that came of a process, if a whole one is there.
    fn take(&mut self, from: u32) -> Option<Frame>;

    /// A frame that couldn't be treated for want of memory: it is the next of that process once more.
    fn give_back(&mut self, from: u32, frame: Frame);

    /// What a process said can't be: the program is to end.
    fn misfit(&mut self, from: u32);

    /// A frame goes behind all that go to a process. After want of memory what goes there is as before.
    fn put(&mut self, to: u32, frame: &Frame) -> Result<(), AllocError>;

    /// Whether less than 256 KiB wait to be sent to a process.
    fn has_room(&self, to: u32) -> bool;

    /// Nothing goes to a process any more, and nothing is read from it.
    fn cut(&mut self, x: u32);

    /// Whom the operator says to be dead, one a call.
    fn next_word(&mut self) -> Option<ProcessId>;

    /// The milliseconds of a clock that never goes back.
    fn now(&self) -> u64;
}
