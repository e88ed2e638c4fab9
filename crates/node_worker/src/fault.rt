use edge_io::Failed;
use std::error::Error;
use std::fmt;

/// Why serving ended before its time.
#[derive(Clone, Copy, Debug, PartialEq, Eq)]
pub enum ServeFault {
    /// The listener counted a fault.
    AcceptFault,
    /// There was no memory.
    Want,
}

impl From<Failed> for ServeFault {
    ghost use Rattle.std.specs.Prelude.{◌≡◌};
    ghost use Rattle.node_worker.specs.declared.fault.ServeFault.TheVariants.{AcceptFault};

    ghost from_gives = { λ _ fault. fault ≡ AcceptFault };

    fn from(_: Failed) -> ServeFault {
        ServeFault::AcceptFault
    }
}

impl fmt::Display for ServeFault {
    fn fmt<W: fmt::Write>(&self, f: &mut fmt::Formatter<W>) -> fmt::Result {
        f.write_str(match self {
            ServeFault::AcceptFault => "no connection could be accepted",
            ServeFault::Want => "no memory for serving",
        })
    }
}

impl Error for ServeFault {}
