use std::io;
use std::net::SocketAddr;

/// Hears of a port what a person wants to know. It changes nothing else.
pub trait Watch {
    /// It listens at this address, whose number the system chose.
    fn listens(&self, at: SocketAddr);

    /// It accepted connections, and now that fails, for this reason where it is known.
    fn fails(&self, error: Option<&io::Error>);

    /// No descriptor is left for a further connection.
    fn is_full(&self);

    /// So many connections are open that further ones are refused.
    fn refuses(&self, open: u64);

    /// It accepts connections again.
    fn recovers(&self);
}
