use edge_io::ReadFault;
use group_types::ConfigKey;
use std::alloc::AllocError;
use std::error::Error;
use std::fmt;

/// Why a text gave no settings.
#[derive(Clone, Copy, Debug, PartialEq, Eq)]
pub enum ConfigFault {
    /// The first key that is wrong: missing though required, of another kind, or out of range.
    BadConfig { key: ConfigKey },
    /// There was no memory.
    Want,
}

impl From<AllocError> for ConfigFault {
    ghost use Rattle.std.specs.Prelude.{◌≡◌};
    ghost use Rattle.group_config.specs.declared.fault.ConfigFault.TheVariants.{Want};

    ghost from_gives = { λ _ fault. fault ≡ Want };

    fn from(_: AllocError) -> ConfigFault {
        ConfigFault::Want
    }
}

impl fmt::Display for ConfigFault {
    fn fmt<W: fmt::Write>(&self, f: &mut fmt::Formatter<W>) -> fmt::Result {
        match self {
            ConfigFault::BadConfig { key } => f.write_str(key.allowed()),
            ConfigFault::Want => f.write_str("no memory for the settings"),
        }
    }
}

impl Error for ConfigFault {}

/// Why no text of settings was read.
#[derive(Clone, Copy, Debug, PartialEq, Eq)]
pub enum TextFault {
    /// The source counted a fault.
    ReadFault,
    /// There are more bytes than settings may have.
    TooLong,
    /// There was no memory.
    Want,
}

impl From<ReadFault> for TextFault {
    ghost use Rattle.std.specs.Prelude.{◌≡◌};
    ghost use Rattle.group_config.specs.Text.{fault_of_read};

    ghost from_gives = { λ read fault. fault ≡ fault_of_read read };

    fn from(fault: ReadFault) -> TextFault {
        match fault {
            ReadFault::TooLong => TextFault::TooLong,
            ReadFault::Failed => TextFault::ReadFault,
            ReadFault::Want => TextFault::Want,
        }
    }
}

impl fmt::Display for TextFault {
    fn fmt<W: fmt::Write>(&self, f: &mut fmt::Formatter<W>) -> fmt::Result {
        f.write_str(match self {
            TextFault::ReadFault => "the settings could not be read",
            TextFault::TooLong => "settings have at most 65536 bytes",
            TextFault::Want => "no memory for the settings",
        })
    }
}

impl Error for TextFault {}
