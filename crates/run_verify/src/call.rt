use memc_table::{Op, Reply};

/// A call that was asked: its op, whether it was answered by a reply or a ticket, and the reply of its entry, once that
/// was logged.
#[derive(Debug, Drop)]
pub struct Call {
    pub op: Op,
    pub taken: bool,
    pub reply: Option<Reply>,
}
