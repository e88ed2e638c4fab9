use group_types::Field;
use std::alloc::AllocError;

/// What is found of a transcript.
#[derive(Clone, Copy, Debug, PartialEq, Eq)]
pub enum Verdict {
    /// All is checked: so many entries of the log, and so many lines that show bytes.
    Verified { entries: u64, shown: u64 },
    /// The first line of the transcript, from 1, that fails; a line that is lacking is the one behind the last.
    Refused { line: u64 },
}

/// Why nothing is checked: a line of the script, from 1, is no line of such a script, or its group line has this field out
/// of range, or there was no memory.
#[derive(Clone, Copy, Debug, PartialEq, Eq)]
pub enum VerifyFault {
    BadLine(u64),
    BadShape(Field),
    Want,
}

impl From<AllocError> for VerifyFault {
    ghost use Rattle.std.specs.Prelude.{◌≡◌};
    ghost use Rattle.run_verify.specs.declared.verdict.VerifyFault.TheVariants.{Want};

    ghost from_gives = { λ _ fault. fault ≡ Want };

    fn from(_: AllocError) -> VerifyFault {
        VerifyFault::Want
    }
}
