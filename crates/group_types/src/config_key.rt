use std::fmt;

/// A key of the settings, or what else may be wrong with their text.
#[derive(Clone, Copy, Debug, PartialEq, Eq)]
pub enum ConfigKey {
    /// The text is no TOML.
    Syntax,
    K,
    M,
    Blocks,
    Block,
    Address,
    Workers,
    Connections,
    Control,
    /// There is a key that settings don't have.
    Unknown,
}

impl ConfigKey {
    /// What is allowed there, as a sentence for a person.
    pub fn allowed(self) -> &'static str {
        match self {
            ConfigKey::Syntax => "settings are TOML in UTF-8, each key once",
            ConfigKey::K => "k is the number of data processes, 1 to 16",
            ConfigKey::M => "m is the number of parity processes, 0 to 4",
            ConfigKey::Blocks => "blocks is at least 1, and blocks * block at most 67108864",
            ConfigKey::Block => "block is a power of two of bytes, 16 to 65536",
            ConfigKey::Address => "address is a text of 1 to 255 bytes, as \"127.0.0.1:11211\"",
            ConfigKey::Workers => "workers is 1 to 64, and 4 where it is left out",
            ConfigKey::Connections => {
                "connections is 0 for no end, or at most 4611686018427387904, and 0 where it is left out"
            }
            ConfigKey::Control => "control is true or false, and false where it is left out",
            ConfigKey::Unknown => {
                "the keys are k, m, blocks, block, address, workers, connections and control"
            }
        }
    }
}

impl fmt::Display for ConfigKey {
    fn fmt<W: fmt::Write>(&self, f: &mut fmt::Formatter<W>) -> fmt::Result {
        f.write_str(match self {
            ConfigKey::Syntax => "syntax",
            ConfigKey::K => "k",
            ConfigKey::M => "m",
            ConfigKey::Blocks => "blocks",
            ConfigKey::Block => "block",
            ConfigKey::Address => "address",
            ConfigKey::Workers => "workers",
            ConfigKey::Connections => "connections",
            ConfigKey::Control => "control",
            ConfigKey::Unknown => "unknown",
        })
    }
}
