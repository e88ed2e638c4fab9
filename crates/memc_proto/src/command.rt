ghost use Rattle.std.specs.Prelude.{◌≡◌};
ghost use Rattle.memc_proto.specs.Line.{command_of};

use crate::store::Verb;

/// The commands of the protocol.
#[derive(Clone, Copy)]
pub enum Command {
    Get,
    Gets,
    Store(Verb),
    Cas,
    Delete,
    Touch,
    Incr,
    Decr,
    Version,
    Quit,
    /// The order that a process fail, this project's own.
    Fail,
}

/// The command that a first word names.
#[tactic(auto, unfolding(crate::specs::Line::command_of))]
pub(crate) fn command_named(word: &[u8]) -> Option<Command>
    ensures { result ≡ command_of word.now }
{
    match word {
        _ if word == b"get".as_slice() => Some(Command::Get),
        _ if word == b"gets".as_slice() => Some(Command::Gets),
        _ if word == b"set".as_slice() => Some(Command::Store(Verb::Set)),
        _ if word == b"add".as_slice() => Some(Command::Store(Verb::Add)),
        _ if word == b"replace".as_slice() => Some(Command::Store(Verb::Replace)),
        _ if word == b"append".as_slice() => Some(Command::Store(Verb::Append)),
        _ if word == b"prepend".as_slice() => Some(Command::Store(Verb::Prepend)),
        _ if word == b"cas".as_slice() => Some(Command::Cas),
        _ if word == b"delete".as_slice() => Some(Command::Delete),
        _ if word == b"touch".as_slice() => Some(Command::Touch),
        _ if word == b"incr".as_slice() => Some(Command::Incr),
        _ if word == b"decr".as_slice() => Some(Command::Decr),
        _ if word == b"version".as_slice() => Some(Command::Version),
        _ if word == b"quit".as_slice() => Some(Command::Quit),
        _ if word == b"cocytus_fail".as_slice() => Some(Command::Fail),
        _ => None,
    }
}
