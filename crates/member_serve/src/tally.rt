/// What a member counts while it runs.
#[derive(Clone, Copy, Debug)]
pub(crate) struct Tally {
    pub(crate) accepted: u64,
    pub(crate) refused: u64,
    pub(crate) broken: u64,
}

impl Tally {
    /// Nothing is counted yet.
    pub(crate) fn new() -> Tally {
        Tally {
            accepted: 0,
            refused: 0,
            broken: 0,
        }
    }

    /// A client was accepted.
    pub(crate) fn accept(&mut self) {
        self.accepted = self.accepted.saturating_add(1);
    }

    /// A client was refused.
    pub(crate) fn refuse(&mut self) {
        self.refused = self.refused.saturating_add(1);
    }

    /// A link broke.
    pub(crate) fn lose_link(&mut self) {
        self.broken = self.broken.saturating_add(1);
    }
}
