ghost use Rattle.std.specs.Prelude.{◌≡◌};
ghost use Rattle.scenario_session.specs.Session.{session_end_of};

use front_end::{ConnectionFault, End};

/// How a session ended.
#[derive(Clone, Copy, Debug, PartialEq, Eq)]
pub enum SessionEnd {
    /// There was the request `quit`, or the input ended between two requests.
    Done,
    /// The input ended inside a request.
    Cut,
    /// A line was longer than a line may be.
    LineTooLong,
    /// As many bytes were read as a connection may have.
    Worn,
    /// The source counted a fault.
    ReadFault,
    /// The sink counted a fault.
    WriteFault,
    /// There was no memory.
    Want,
}

/// How a session ends whose connection ended so.
pub(crate) fn end_of(connection: Result<End, ConnectionFault>) -> SessionEnd
    ensures { result ≡ session_end_of connection }
{
    match connection {
        Ok(End::Quit) => SessionEnd::Done,
        Ok(End::Ended) => SessionEnd::Done,
        Ok(End::Cut) => SessionEnd::Cut,
        Ok(End::LineTooLong) => SessionEnd::LineTooLong,
        Ok(End::Worn) => SessionEnd::Worn,
        Err(ConnectionFault::ReadFault) => SessionEnd::ReadFault,
        Err(ConnectionFault::WriteFault) => SessionEnd::WriteFault,
        Err(ConnectionFault::Want) => SessionEnd::Want,
    }
}
