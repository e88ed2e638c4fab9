use edge_io::SinkFault;
use group_config::{ConfigFault, TextFault};
use group_types::ConfigKey;
use node_worker::ServeFault;
use std::alloc::AllocError;
use std::error::Error;
use std::fmt;

/// Why a group was not served to its end.
#[derive(Clone, Copy, Debug, PartialEq, Eq)]
pub enum ServiceFault {
    /// There are more bytes than settings may have.
    TooLong,
    /// The first key of the settings that is wrong.
    BadConfig(ConfigKey),
    /// The source counted a fault.
    ReadFault,
    /// The sink counted a fault.
    WriteFault,
    /// The listener counted a fault.
    AcceptFault,
    /// There was no memory.
    Want,
}

impl From<TextFault> for ServiceFault {
    ghost use Rattle.std.specs.Prelude.{◌≡◌};
    ghost use Rattle.group_server.specs.Faults.{of_text};

    ghost from_gives = { λ fault service. service ≡ of_text fault };

    fn from(fault: TextFault) -> ServiceFault {
        match fault {
            TextFault::TooLong => ServiceFault::TooLong,
            TextFault::ReadFault => ServiceFault::ReadFault,
            TextFault::Want => ServiceFault::Want,
        }
    }
}

impl From<ConfigFault> for ServiceFault {
    ghost use Rattle.std.specs.Prelude.{◌≡◌};
    ghost use Rattle.group_server.specs.Faults.{of_config};

    ghost from_gives = { λ fault service. service ≡ of_config fault };

    fn from(fault: ConfigFault) -> ServiceFault {
        match fault {
            ConfigFault::BadConfig { key } => ServiceFault::BadConfig(key),
            ConfigFault::Want => ServiceFault::Want,
        }
    }
}

impl From<ServeFault> for ServiceFault {
    ghost use Rattle.std.specs.Prelude.{◌≡◌};
    ghost use Rattle.group_server.specs.Faults.{of_serving};

    ghost from_gives = { λ fault service. service ≡ of_serving fault };

    fn from(fault: ServeFault) -> ServiceFault {
        match fault {
            ServeFault::AcceptFault => ServiceFault::AcceptFault,
            ServeFault::Want => ServiceFault::Want,
        }
    }
}

impl From<SinkFault> for ServiceFault {
    ghost use Rattle.std.specs.Prelude.{◌≡◌};
    ghost use Rattle.group_server.specs.Faults.{of_sink};

    ghost from_gives = { λ fault service. service ≡ of_sink fault };

    fn from(fault: SinkFault) -> ServiceFault {
        match fault {
            SinkFault::Failed => ServiceFault::WriteFault,
            SinkFault::Want => ServiceFault::Want,
        }
    }
}

impl From<AllocError> for ServiceFault {
    ghost use Rattle.std.specs.Prelude.{◌≡◌};
    ghost use Rattle.group_server.specs.declared.fault.ServiceFault.TheVariants.{Want};

    ghost from_gives = { λ _ service. service ≡ Want };

    fn from(_: AllocError) -> ServiceFault {
        ServiceFault::Want
    }
}

impl fmt::Display for ServiceFault {
    fn fmt<W: fmt::Write>(&self, f: &mut fmt::Formatter<W>) -> fmt::Result {
        f.write_str(match self {
            ServiceFault::TooLong => "settings have at most 65536 bytes",
            ServiceFault::BadConfig(key) => key.allowed(),
            ServiceFault::ReadFault => "the settings could not be read",
            ServiceFault::WriteFault => "the output could not be written",
            ServiceFault::AcceptFault => "no connection could be accepted",
            ServiceFault::Want => "no memory for serving",
        })
    }
}

impl Error for ServiceFault {}
