/// Answers by their forms, whatever their replies and numbers.
#[derive(Clone, Copy, Debug, PartialEq, Eq)]
pub enum Form {
    Reply,
    Ticket,
    NotYet,
    NoSpace,
    Retry,
    Moved,
    Lost,
    Down,
    Idle,
    Stranger,
    Done,
    AlreadyDead,
    Gone,
    Stale,
}
