ghost use Rattle.std.specs.Prelude.{◌≡◌, ◌≢◌};
ghost use Rattle.clap.specs.Words.{kind_of};
ghost use Rattle.clap.specs.declared.error.kind.ErrorKind.TheVariants as kind;

use clap::Error;
use clap::error::ErrorKind;
use std::alloc::AllocError;

/// Why words are no command.
#[derive(Clone, Copy, Debug, PartialEq, Eq)]
pub enum WordsFault {
    /// They say no command.
    BadWords,
    /// Memory ran out.
    Want,
}

impl From<AllocError> for WordsFault {
    ghost use Rattle.std.specs.Prelude.{◌≡◌};
    ghost use Rattle.command_line.specs.declared.fault.WordsFault.TheVariants.{Want};

    ghost from_gives = { λ _ fault. fault ≡ Want };

    fn from(_: AllocError) -> WordsFault {
        WordsFault::Want
    }
}

/// What a parse that failed says of its words.
pub(crate) fn fault_of(error: &Error) -> WordsFault
    ensures bad { result ≡ WordsFault.BadWords → kind_of error.now ≢ kind.OutOfMemory }
    ensures want { result ≡ WordsFault.Want → kind_of error.now ≡ kind.OutOfMemory }
{
    match error.kind() {
        ErrorKind::OutOfMemory => WordsFault::Want,
        _ => WordsFault::BadWords,
    }
}
