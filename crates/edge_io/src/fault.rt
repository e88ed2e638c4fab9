use std::alloc::AllocError;
use std::error::Error;
use std::fmt;

/// A read, a `listen` or an `accept` failed, and the object counted a fault.
#[derive(Clone, Copy, Debug, PartialEq, Eq)]
pub struct Failed;

/// Why a write took nothing.
#[derive(Clone, Copy, Debug, PartialEq, Eq)]
pub enum SinkFault {
    /// The write failed, and the sink counted a fault.
    Failed,
    /// There was no memory for the bytes.
    Want,
}

/// Why a source wasn't read to its end.
#[derive(Clone, Copy, Debug, PartialEq, Eq)]
pub enum ReadFault {
    /// It has more bytes than the limit.
    TooLong,
    /// A read failed, and the source counted a fault.
    Failed,
    /// There was no memory for the bytes.
    Want,
}

impl From<Failed> for ReadFault {
    ghost use Rattle.std.specs.Prelude.{◌≡◌};
    ghost use Rattle.edge_io.specs.declared.fault.ReadFault.TheVariants as read;

    ghost from_gives = { λ _ fault. fault ≡ read.Failed };

    fn from(_: Failed) -> ReadFault {
        ReadFault::Failed
    }
}

impl From<AllocError> for ReadFault {
    ghost use Rattle.std.specs.Prelude.{◌≡◌};
    ghost use Rattle.edge_io.specs.declared.fault.ReadFault.TheVariants.{Want};

    ghost from_gives = { λ _ fault. fault ≡ Want };

    fn from(_: AllocError) -> ReadFault {
        ReadFault::Want
    }
}

impl fmt::Display for Failed {
    fn fmt<W: fmt::Write>(&self, f: &mut fmt::Formatter<W>) -> fmt::Result {
        f.write_str("the outside failed")
    }
}

impl fmt::Display for SinkFault {
    fn fmt<W: fmt::Write>(&self, f: &mut fmt::Formatter<W>) -> fmt::Result {
        f.write_str(match self {
            SinkFault::Failed => "the write failed",
            SinkFault::Want => "no memory for the bytes",
        })
    }
}

impl fmt::Display for ReadFault {
    fn fmt<W: fmt::Write>(&self, f: &mut fmt::Formatter<W>) -> fmt::Result {
        f.write_str(match self {
            ReadFault::TooLong => "too many bytes",
            ReadFault::Failed => "the read failed",
            ReadFault::Want => "no memory for the bytes",
        })
    }
}

impl Error for Failed {}

impl Error for ReadFault {}

impl Error for SinkFault {}
