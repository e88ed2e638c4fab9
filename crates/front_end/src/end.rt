use edge_io::{Failed, SinkFault};
use std::alloc::AllocError;

/// How a connection ended.
#[derive(Clone, Copy, Debug, PartialEq, Eq)]
pub enum End {
    /// There was the request `quit`.
    Quit,
    /// The input ended between two requests.
    Ended,
    /// The input ended inside a request.
    Cut,
    /// A line was longer than a line may be.
    LineTooLong,
    /// As many bytes were read as a connection may have.
    Worn,
}

/// Why a connection was not served to its end.
#[derive(Clone, Copy, Debug, PartialEq, Eq)]
pub enum ConnectionFault {
    /// The source counted a fault.
    ReadFault,
    /// The sink counted a fault.
    WriteFault,
    /// There was no memory.
    Want,
}

impl From<AllocError> for ConnectionFault {
    ghost use Rattle.std.specs.Prelude.{◌≡◌};
    ghost use Rattle.front_end.specs.declared.end.ConnectionFault.TheVariants.{Want};

    ghost from_gives = { λ _ fault. fault ≡ Want };

    fn from(_: AllocError) -> ConnectionFault {
        ConnectionFault::Want
    }
}

impl From<Failed> for ConnectionFault {
    ghost use Rattle.std.specs.Prelude.{◌≡◌};
    ghost use Rattle.front_end.specs.declared.end.ConnectionFault.TheVariants.{ReadFault};

    ghost from_gives = { λ _ fault. fault ≡ ReadFault };

    fn from(_: Failed) -> ConnectionFault {
        ConnectionFault::ReadFault
    }
}

impl From<SinkFault> for ConnectionFault {
    ghost use Rattle.std.specs.Prelude.{◌≡◌};
    ghost use Rattle.front_end.specs.Faults.{fault_of_sink};

    ghost from_gives = { λ failed fault. fault ≡ fault_of_sink failed };

    fn from(failed: SinkFault) -> ConnectionFault {
        match failed {
            SinkFault::Failed => ConnectionFault::WriteFault,
            SinkFault::Want => ConnectionFault::Want,
        }
    }
}
