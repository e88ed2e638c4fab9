use std::io;
use std::io::ErrorKind;
use std::net::{TcpListener, TcpStream};

/// How many connections in a row may be lost before they are handed out.
const RETRIES: u32 = 1_000_000;

/// The errors of a connection that was lost on its way, as accept(2) names those to try again at: EPROTO, ENONET, EHOSTDOWN,
/// EOPNOTSUPP and ENOPROTOOPT of Linux.
const LOST: [i32; 5] = [71, 64, 112, 95, 92];

/// The errors that say that no descriptor is left: EMFILE of the process, ENFILE of the system.
const NO_DESCRIPTOR: [i32; 2] = [24, 23];

/// What is made of a connection that came.
pub(crate) trait Ends {
    /// The ends of the connection, if the system gives them.
    fn of(incoming: TcpStream) -> io::Result<Self>
    where
        Self: Sized;
}

/// The next connection. One that is lost on its way, or of which the system gives no ends, ends alone: the next is taken.
/// Where no descriptor is left the reserve's is used for it, if there is one.
pub(crate) fn accept_from<E: Ends>(
    listener: &TcpListener,
    reserve: &mut Option<TcpListener>,
) -> io::Result<E> {
    'tries: for _ in 0..RETRIES {
        match listener.accept() {
            Ok((incoming, _)) => {
                if let Ok(ends) = E::of(incoming) {
                    return Ok(ends);
                }
            }
            Err(error) if is_of_one_connection(&error) => {}
            Err(error) if reserve.is_some() && has_no_descriptor(&error) => *reserve = None,
            Err(error) => return Err(error),
        }
    }
    let (incoming, _) = listener.accept()?;
    E::of(incoming)
}

/// Takes a descriptor into the reserve where it has none, if the system gives one.
pub(crate) fn fill_reserve(listener: &TcpListener, reserve: &mut Option<TcpListener>) {
    if reserve.is_none() {
        *reserve = listener.try_clone().ok();
    }
}

/// Whether an error of `accept` is of the connection that was next, or of a call that was interrupted, and not of the
/// port.
fn is_of_one_connection(error: &io::Error) -> bool {
    matches!(
        error.kind(),
        ErrorKind::Interrupted
            | ErrorKind::ConnectionAborted
            | ErrorKind::ConnectionReset
            | ErrorKind::HostUnreachable
            | ErrorKind::NetworkUnreachable
            | ErrorKind::NetworkDown
    ) || is_among(error, &LOST)
}

fn has_no_descriptor(error: &io::Error) -> bool {
    is_among(error, &NO_DESCRIPTOR)
}

fn is_among(error: &io::Error, codes: &[i32]) -> bool {
    match error.raw_os_error() {
        Some(code) => codes.contains(&code),
        None => false,
    }
}

// The end to read from and the end to write to.
impl Ends for (TcpStream, TcpStream) {
    fn of(incoming: TcpStream) -> io::Result<(TcpStream, TcpStream)> {
        hurry(&incoming);
        let outgoing = incoming.try_clone()?;
        Ok((incoming, outgoing))
    }
}

// One stream whose reads and writes do not wait.
impl Ends for mio::net::TcpStream {
    fn of(incoming: TcpStream) -> io::Result<mio::net::TcpStream> {
        hurry(&incoming);
        incoming.set_nonblocking(true)?;
        Ok(mio::net::TcpStream::from_std(incoming))
    }
}

/// Has answers go out at once: where the system refuses that they go out later.
fn hurry(stream: &TcpStream) {
    let _ = stream.set_nodelay(true);
}
