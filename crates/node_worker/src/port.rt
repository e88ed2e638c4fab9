use front_end::Caller;

/// Lends a caller to each connection that is being served.
pub trait Port: Sync {
    /// What is lent.
    type Lent: Caller + Send + Drop;

    /// A caller that nobody else has: none where all are lent, after which it is asked again.
    fn lend(&self) -> Option<Self::Lent>;

    /// Takes back what was lent.
    fn give_back(&self, lent: Self::Lent);
}
