ghost use Rattle.std.specs.Prelude.{◌≡◌, ℕ, Option};
ghost use Rattle.std.specs.Duration.{as_nanos};
ghost use Rattle.std.specs.Option.{option_map};

use crate::notice::Notice;
use std::io;
use std::io::{Read, Write};
use std::time::Duration;

/// Tells which of the streams that it watches became ready to be read or written, each by its key. It tells a stream again
/// only once more came for it or it has room again, and one that was let go no more. One of which a read came short is told
/// again once it has more to be read or has ended, unless it was told that its peer may have closed it.
pub trait Readiness: Drop {
    /// A stream that can be watched, which says `WouldBlock` where it would have to wait.
    type Stream: Read + Write + Drop;

    /// What ends a wait.
    type Waker: Wake;

    // How many nanoseconds it waited last at the most. None: as long as nothing came.
    ghost waited: { Self → Option ℕ };

    /// What ends the waits of this one.
    fn waker(&self) -> io::Result<Self::Waker>;

    /// Watches a stream from now on, under this key. Says whether it can.
    fn register(&mut self, stream: &mut Self::Stream, key: usize) -> bool;

    /// Waits until a stream is ready, the waker ends it, or so much time went by.
    fn wait(&mut self, limit: Option<Duration>)
        ensures waited { Self.waited self.new ≡ option_map as_nanos limit };

    /// The streams that were ready when the last wait ended.
    fn ready(&self) -> &[Notice];
}

/// Ends a wait of a worker, from any thread.
pub trait Wake {
    /// Ends the wait, or the next one.
    fn wake(&self);
}
