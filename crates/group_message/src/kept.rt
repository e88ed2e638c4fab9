use crate::update::Outcome;

/// What is kept of a caller's last applied update in a partition: its call, and what that is answered.
#[derive(Clone, Copy, Debug, PartialEq, Eq)]
pub struct Kept {
    pub call: u64,
    pub outcome: Outcome,
}
