use crate::carry_key::CarryKey;
use std::alloc::AllocError;

/// Why a text gave no settings of a carry.
#[derive(Clone, Copy, Debug, PartialEq, Eq)]
pub enum CarryKeyFault {
    /// The first key that is wrong: missing though required, of another kind, or out of range.
    BadKey { key: CarryKey },
    /// There was no memory.
    Want,
}

impl From<AllocError> for CarryKeyFault {
    ghost use Rattle.std.specs.Prelude.{◌≡◌};
    ghost use Rattle.group_config.specs.declared.carry_fault.CarryKeyFault.TheVariants.{Want};

    ghost from_gives = { λ _ fault. fault ≡ Want };

    fn from(_: AllocError) -> CarryKeyFault {
        CarryKeyFault::Want
    }
}
