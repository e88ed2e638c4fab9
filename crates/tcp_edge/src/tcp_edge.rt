ghost use Rattle.std.specs.Prelude.{◌≡◌, ◌^◌, ◌≤◌, None};
ghost use Rattle.std.specs.Option.{option_map};

use crate::accepting::{Ends, accept_from, fill_reserve};
use crate::listening::{Bound, listen_at};
use edge_io::{Failed, Listener, ReadEdge, WriteEdge};
use mio::Poll;
use std::io;
use std::io::ErrorKind;
use std::net::{Net, SocketAddr, TcpListener, TcpStream};

/// The most connections that a listener hands out.
const MOST_CONNECTIONS: u64 = 1 << 62;

/// A port as a listener: each error counts as a fault, and so do an `accept` before `listen` and one after 2^62
/// connections. It never says that no connection comes, and keeps its last error for a person to read. It keeps a
/// descriptor in reserve, so that one connection more than there are descriptors for can be accepted, told so and let go.
#[derive(Drop)]
pub struct TcpEdge<N> {
    net: N,
    listener: Option<Bound>,
    reserve: Option<TcpListener>,
    accepted: u64,
    faults: u64,
    last_error: Option<io::Error>,
    ghost limit: { accepted ≤ 2 ^ 62 },
}

impl<N> TcpEdge<N> {
    ghost use Rattle.std.specs.Prelude.{◌≡◌, ◌<◌, ◌≤◌, ◌^◌, ◌↔◌, IsTrue, OnOk, None, Some, option_copied};
    ghost use Rattle.edge_io.specs.Faults.{Rose, saturating_next};

    /// No port yet: `net` is the runtime value that opens sockets.
    pub fn new(net: N) -> TcpEdge<N>
        ensures listener { result.listener ≡ None }
        ensures accepted { result.accepted ≡ 0 }
        ensures faults { result.faults ≡ 0 }
        ensures last_error { result.last_error ≡ None }
    {
        TcpEdge {
            net,
            listener: None,
            reserve: None,
            accepted: 0,
            faults: 0,
            last_error: None,
        }
    }

    /// Whether nothing is in reserve: no descriptor is left, and the next connection that comes can be accepted only once
    /// one is let go.
    pub fn is_full(&self) -> bool
        ensures { IsTrue result ↔ (self.now.reserve ≡ None) }
    {
        self.reserve.is_none()
    }

    /// Why the last call that failed did so: none where none failed.
    pub fn last_error(&self) -> Option<&io::Error>
        ensures { option_copied result ≡ self.now.last_error }
    {
        self.last_error.as_ref()
    }

    /// The port that was bound, for a person to read: an error where there is none.
    pub fn local_addr(&self) -> io::Result<SocketAddr> {
        match &self.listener {
            Some(listener) => listener.port.local_addr(),
            None => Err(io::Error::from(ErrorKind::NotConnected)),
        }
    }

    // Counts a fault, and keeps its error.
    fn fail(&mut self, error: io::Error) -> Failed
        ensures faults { self.new.faults ≡ saturating_next self.old.faults }
        ensures later { self.old.faults ≤ self.new.faults }
        ensures rose { Rose self.old.faults self.new.faults }
        ensures error { self.new.last_error ≡ Some error }
        ensures accepted { self.new.accepted ≡ self.old.accepted }
        ensures listener { self.new.listener ≡ self.old.listener }
    {
        self.faults = self.faults.saturating_add(1);
        self.last_error = Some(error);
        Failed
    }

    // The next connection of the port, if there is one.
    fn next<E: Ends>(&mut self) -> io::Result<E>
        ensures few { OnOk result (self.old.accepted < 2 ^ 62) }
        ensures accepted { self.new.accepted ≡ self.old.accepted }
        ensures faults { self.new.faults ≡ self.old.faults }
        ensures listener { self.new.listener ≡ self.old.listener }
    {
        if self.accepted >= MOST_CONNECTIONS {
            return Err(io::Error::from(ErrorKind::QuotaExceeded));
        }
        let Some(listener) = &self.listener else {
            return Err(io::Error::from(ErrorKind::NotConnected));
        };
        fill_reserve(&listener.port, &mut self.reserve);
        let next = accept_from(&listener.port, &mut self.reserve);
        fill_reserve(&listener.port, &mut self.reserve);
        next
    }
}

impl<N: Net> TcpEdge<N> {
    ghost use Rattle.std.specs.Prelude.{◌≡◌, ◌≤◌, ◌^◌, ◌+◌, OnOk, OnErr, is_err, if◌then◌else◌};
    ghost use Rattle.edge_io.specs.Faults.{HasCause, saturating_next};

    /// A poll of the system that opened the port: streams that do not wait are waited for at it.
    pub fn poll(&self) -> io::Result<Poll> {
        Poll::new(&self.net)
    }

    /// The next connection of the port, which is waited for, as one stream whose reads and writes do not wait.
    pub fn accept_stream(&mut self) -> Result<mio::net::TcpStream, Failed>
        ensures limit { self.new.accepted ≤ 2 ^ 62 }
        ensures listener { self.new.listener ≡ self.old.listener }
        ensures accepts { OnOk result (self.new.accepted ≡ self.old.accepted + 1) }
        ensures none { OnErr result (self.new.accepted ≡ self.old.accepted) }
        ensures cause { HasCause self.old.faults self.new.faults result }
        ensures count { self.new.faults ≡ (if is_err result then saturating_next self.old.faults else self.old.faults) }
    {
        match self.next() {
            Ok(stream) => {
                self.accepted += 1;
                Ok(stream)
            }
            Err(error) => Err(self.fail(error)),
        }
    }
}

impl<N: Net> Listener for TcpEdge<N> {
    ghost use Rattle.std.specs.Prelude.{◌≡◌, ◌+◌, ◌^◌, ◌≤◌, ◌≢◌, None, Some, false, [], IfOk, OnErr, OnOk, IsSome, IfSome, is_err, if◌then◌else◌};
    ghost use Rattle.edge_io.specs.Connections.{count_handed_out};
    ghost use Rattle.edge_io.specs.Faults.{HasCause, saturating_next};

    type Incoming = ReadEdge<TcpStream>;

    type Outgoing = WriteEdge<TcpStream>;

    ghost faults = { λ l. l.faults };

    ghost accepted = { λ l. l.accepted };

    ghost over = { λ _. false };

    ghost to_come = { λ _. None };

    ghost at = { λ l. option_map (λ b. b.at.bytes) l.listener };

    ghost listened = { λ _ _ after. IsSome after.listener };

    fn listen(&mut self, address: &str) -> Result<(), Failed>
        ensures begun { OnOk result (IsSome self.new.listener) }
        ensures at { OnOk result (option_map (λ b. b.at.bytes) self.new.listener ≡ Some address.now) }
        ensures no_other { OnOk result (self.new.reserve ≡ None) }
        ensures at_before { OnErr result (self.new.listener ≡ self.old.listener) }
        ensures limit { self.new.accepted ≤ 2 ^ 62 }
        ensures none_accepted { self.new.accepted ≡ self.old.accepted }
        ensures cause { HasCause self.old.faults self.new.faults result }
        ensures count { self.new.faults ≡ (if is_err result then saturating_next self.old.faults else self.old.faults) }
    {
        match listen_at(&self.net, address) {
            Ok(listener) => {
                self.listener = Some(listener);
                self.reserve = None;
                Ok(())
            }
            Err(error) => Err(self.fail(error)),
        }
    }

    fn accept(&mut self) -> Result<Option<(ReadEdge<TcpStream>, WriteEdge<TcpStream>)>, Failed>
        ensures limit { self.new.accepted ≤ 2 ^ 62 }
        ensures listener { self.new.listener ≡ self.old.listener }
        ensures never_over { IfOk result (λ next. next ≢ None) }
        ensures accepts { self.new.accepted ≡ self.old.accepted + count_handed_out result }
        ensures unread { IfOk result (λ o. IfSome o (λ c. (c.0.past.bytes ≡ []) × (c.0.ended ≡ false))) }
        ensures fresh { IfOk result (λ o. IfSome o (λ c. c.1.past.bytes ≡ [])) }
        ensures cause { HasCause self.old.faults self.new.faults result }
        ensures count { self.new.faults ≡ (if is_err result then saturating_next self.old.faults else self.old.faults) }
    {
        match self.next() {
            Ok((incoming, outgoing)) => {
                self.accepted += 1;
                Ok(Some((ReadEdge::new(incoming), WriteEdge::new(outgoing))))
            }
            Err(error) => Err(self.fail(error)),
        }
    }
}
