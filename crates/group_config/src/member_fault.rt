use crate::member_key::MemberKey;
use std::alloc::AllocError;
use std::error::Error;
use std::fmt;

/// Why a text gave no settings of a member.
#[derive(Clone, Copy, Debug, PartialEq, Eq)]
pub enum MemberFault {
    /// The first key that is wrong: missing though required, of another kind, or out of range.
    BadKey { key: MemberKey },
    /// There was no memory.
    Want,
}

impl From<AllocError> for MemberFault {
    ghost use Rattle.std.specs.Prelude.{◌≡◌};
    ghost use Rattle.group_config.specs.declared.member_fault.MemberFault.TheVariants.{Want};

    ghost from_gives = { λ _ fault. fault ≡ Want };

    fn from(_: AllocError) -> MemberFault {
        MemberFault::Want
    }
}

impl fmt::Display for MemberFault {
    fn fmt<W: fmt::Write>(&self, f: &mut fmt::Formatter<W>) -> fmt::Result {
        match self {
            MemberFault::BadKey { key } => f.write_str(key.allowed()),
            MemberFault::Want => f.write_str("no memory for the settings"),
        }
    }
}

impl Error for MemberFault {}
