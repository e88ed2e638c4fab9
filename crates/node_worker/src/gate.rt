/// What is called around the serving of each connection, the connections being numbered from 1. It may wait.
pub trait Gate: Sync {
    /// Called before the first byte of a connection is read.
    fn before(&self, connection: u64);

    /// Called after a connection was served.
    fn after(&self, connection: u64);
}

/// The gate that does nothing.
#[derive(Clone, Copy, Debug)]
pub struct OpenGate;

impl Gate for OpenGate {
    fn before(&self, _connection: u64) {}

    fn after(&self, _connection: u64) {}
}
