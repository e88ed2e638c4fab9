use std::alloc::{AllocError, AllocFailed};

/// Why a carry stops.
#[derive(Clone, Copy, Debug, PartialEq, Eq)]
pub(crate) enum Stop {
    /// A person was told.
    Told,
    /// There was no memory.
    Want,
}

impl From<AllocError> for Stop {
    fn from(_: AllocError) -> Stop {
        Stop::Want
    }
}

impl<T: Drop> From<AllocFailed<T>> for Stop {
    fn from(_: AllocFailed<T>) -> Stop {
        Stop::Want
    }
}
