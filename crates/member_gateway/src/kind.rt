use crate::command::Command;

/// What a call is, as far as the share of the callers goes that it may take.
#[derive(Clone, Copy, PartialEq, Eq)]
pub(crate) enum Kind {
    Get,
    Change,
}

impl Kind {
    pub(crate) fn of(command: Command) -> Kind {
        match command {
            Command::Get => Kind::Get,
            _ => Kind::Change,
        }
    }
}
