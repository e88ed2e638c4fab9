use crate::verdict::VerifyFault;
use edge_io::{ReadFault, SinkFault};
use group_types::Field;
use std::alloc::AllocError;

/// How the verifying of a text ended.
#[derive(Clone, Copy, Debug, PartialEq, Eq)]
pub enum VerifyStatus {
    /// All is checked.
    Done,
    /// The first line of the transcript, from 1, that fails.
    Refused(u64),
    /// The first line of the script, from 1, that is no line of such a script, or is lacking.
    BadLine(u64),
    /// The first field of the group's shape, in the order k, m, block, blocks, that is out of range.
    BadShape(Field),
    /// The input has more bytes than its limit.
    TooLong,
    /// The source counted a fault.
    ReadFault,
    /// The sink counted a fault.
    WriteFault,
    /// There was no memory.
    Want,
}

impl From<AllocError> for VerifyStatus {
    ghost use Rattle.std.specs.Prelude.{◌≡◌};
    ghost use Rattle.run_verify.specs.declared.status.VerifyStatus.TheVariants.{Want};

    ghost from_gives = { λ _ status. status ≡ Want };

    fn from(_: AllocError) -> VerifyStatus {
        VerifyStatus::Want
    }
}

impl From<ReadFault> for VerifyStatus {
    ghost use Rattle.std.specs.Prelude.{◌≡◌};
    ghost use Rattle.run_verify.specs.Text.{status_of_read_fault};

    ghost from_gives = { λ fault status. status ≡ status_of_read_fault fault };

    fn from(fault: ReadFault) -> VerifyStatus {
        match fault {
            ReadFault::TooLong => VerifyStatus::TooLong,
            ReadFault::Failed => VerifyStatus::ReadFault,
            ReadFault::Want => VerifyStatus::Want,
        }
    }
}

impl From<SinkFault> for VerifyStatus {
    ghost use Rattle.std.specs.Prelude.{◌≡◌};
    ghost use Rattle.run_verify.specs.Text.{status_of_write_fault};

    ghost from_gives = { λ fault status. status ≡ status_of_write_fault fault };

    fn from(fault: SinkFault) -> VerifyStatus {
        match fault {
            SinkFault::Failed => VerifyStatus::WriteFault,
            SinkFault::Want => VerifyStatus::Want,
        }
    }
}

impl From<VerifyFault> for VerifyStatus {
    ghost use Rattle.std.specs.Prelude.{◌≡◌};
    ghost use Rattle.run_verify.specs.Text.{status_of_fault};

    ghost from_gives = { λ fault status. status ≡ status_of_fault fault };

    fn from(fault: VerifyFault) -> VerifyStatus {
        match fault {
            VerifyFault::BadLine(line) => VerifyStatus::BadLine(line),
            VerifyFault::BadShape(field) => VerifyStatus::BadShape(field),
            VerifyFault::Want => VerifyStatus::Want,
        }
    }
}
