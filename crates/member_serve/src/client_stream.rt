use mio::net::TcpStream;
use std::alloc::{AllocError, Global};
use std::io;
use std::io::{Read, Write};
use std::net::Shutdown;
use std::rc::{Rc, Weak};

/// A client's stream, which can be shut while it waits for the end of a call.
#[derive(Drop)]
pub(crate) struct ClientStream {
    shared: Rc<TcpStream>,
}

/// What shuts a client's stream, as long as the client has a place.
#[derive(Drop)]
pub(crate) struct Shutter {
    stream: Weak<TcpStream>,
}

impl ClientStream {
    /// A stream that can be shut.
    pub(crate) fn new(alloc: Global, stream: TcpStream) -> Result<ClientStream, AllocError> {
        Ok(ClientStream {
            shared: Rc::new(alloc, stream)?,
        })
    }

    /// The stream itself.
    pub(crate) fn stream(&self) -> &TcpStream {
        &self.shared
    }

    /// What shuts it.
    pub(crate) fn shutter(&self) -> Result<Shutter, AllocError> {
        Ok(Shutter {
            stream: Rc::downgrade(&self.shared)?,
        })
    }
}

impl Shutter {
    /// Shuts no stream.
    pub(crate) fn none() -> Shutter {
        Shutter {
            stream: Weak::new(),
        }
    }

    /// Shuts the stream, if it is there.
    pub(crate) fn shut(&self) {
        if let Some(stream) = self.stream.upgrade() {
            let _ = stream.shutdown(Shutdown::Both);
        }
    }
}

impl Read for ClientStream {
    fn read(&mut self, buf: &mut [u8]) -> io::Result<usize> {
        let mut stream = self.stream();
        stream.read(buf)
    }
}

impl Write for ClientStream {
    fn write(&mut self, buf: &[u8]) -> io::Result<usize> {
        let mut stream = self.stream();
        stream.write(buf)
    }

    fn flush(&mut self) -> io::Result<()> {
        Ok(())
    }
}
