use crate::Status;
use group_server::Notice;

/// Tells a person beside the output how a run ended, with what its source and its port know of it. It changes nothing else.
pub trait Explain<S, L>: Notice {
    /// A command with these words ended so, which read this source, or listened at this port.
    fn explain(&self, words: &[String], status: Status, source: &S, port: &L);
}
