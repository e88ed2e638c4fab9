/// What a connection keeps of a call that it began.
#[derive(Debug, Drop, PartialEq, Eq)]
pub enum MovingCall<K> {
    /// A call of the inner gateway.
    Inner(K),
    /// A call that was refused, since the group is closed.
    Refused,
}
