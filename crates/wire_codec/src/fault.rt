use std::alloc::{AllocError, AllocFailed};

/// Why nothing was read: no such thing is spelled there, or there was no memory.
#[derive(Clone, Copy, Debug, PartialEq, Eq)]
pub enum ReadFault {
    NoSpelling,
    Want,
}

impl From<AllocError> for ReadFault {
    ghost use Rattle.std.specs.Prelude.{◌≡◌};
    ghost use Rattle.wire_codec.specs.declared.fault.ReadFault.TheVariants.{Want};

    ghost from_gives = { λ _ fault. fault ≡ Want };

    fn from(_: AllocError) -> ReadFault {
        ReadFault::Want
    }
}

impl<T: Drop> From<AllocFailed<T>> for ReadFault {
    ghost use Rattle.std.specs.Prelude.{◌≡◌};
    ghost use Rattle.wire_codec.specs.declared.fault.ReadFault.TheVariants.{Want};

    ghost from_gives = { λ _ fault. fault ≡ Want };

    fn from(_: AllocFailed<T>) -> ReadFault {
        ReadFault::Want
    }
}
