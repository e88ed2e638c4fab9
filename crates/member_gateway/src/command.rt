use memc_table::Act;

/// How many commands there are.
pub(crate) const COMMANDS: usize = 11;

/// What a client's call asks, by the name of memcached's protocol.
#[derive(Clone, Copy)]
pub enum Command {
    Get,
    Set,
    Add,
    Replace,
    Append,
    Prepend,
    Cas,
    Delete,
    Touch,
    Incr,
    Decr,
}

impl Command {
    /// The command of an act.
    pub fn of(act: &Act) -> Command {
        match act {
            Act::Get { .. } => Command::Get,
            Act::Set { .. } => Command::Set,
            Act::Add { .. } => Command::Add,
            Act::Replace { .. } => Command::Replace,
            Act::Append { .. } => Command::Append,
            Act::Prepend { .. } => Command::Prepend,
            Act::Cas { .. } => Command::Cas,
            Act::Delete { .. } => Command::Delete,
            Act::Touch { .. } => Command::Touch,
            Act::Incr { .. } => Command::Incr,
            Act::Decr { .. } => Command::Decr,
        }
    }

    /// Its place among the commands.
    pub(crate) fn place(self) -> usize {
        match self {
            Command::Get => 0,
            Command::Set => 1,
            Command::Add => 2,
            Command::Replace => 3,
            Command::Append => 4,
            Command::Prepend => 5,
            Command::Cas => 6,
            Command::Delete => 7,
            Command::Touch => 8,
            Command::Incr => 9,
            Command::Decr => 10,
        }
    }
}
