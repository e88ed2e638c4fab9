ghost use Rattle.std.specs.Prelude.{◌≤◌, vec_capacity};
ghost use Rattle.mio.specs.Events.{capacity as events_capacity};

use crate::client_stream::{ClientStream, Shutter};
use crate::noting::{FIRST_OTHER, Noted, note_clients, note_others};
use mio::unix::SourceFd;
use mio::{Events, Interest, Poll, Registry, Token, Waker};
use ready_worker::{Notice, Readiness};
use std::alloc::{AllocError, Global};
use std::io;
use std::os::fd::AsRawFd;
use std::time::Duration;

/// The most events that one wait gives.
const EVENTS: usize = 1_024;

/// The token of what ends a wait.
const WAKER: Token = Token(usize::MAX);

/// The readiness of a member's streams: those of clients by their keys, and all others by their tokens.
#[derive(Drop)]
pub(crate) struct MemberReadiness {
    poll: Poll,
    events: Events,
    notices: Vec<Notice>,
    others: Vec<Noted>,
    shutters: Vec<Shutter>,
    limit: Option<Duration>,
    ghost notices_room: { events_capacity events ≤ vec_capacity notices },
    ghost others_room: { events_capacity events ≤ vec_capacity others },
}

impl MemberReadiness {
    /// What this poll tells.
    pub(crate) fn new(alloc: Global, poll: Poll) -> Result<MemberReadiness, AllocError> {
        Ok(MemberReadiness {
            poll,
            events: Events::with_capacity(alloc, EVENTS)?,
            notices: Vec::with_capacity(alloc, EVENTS)?,
            others: Vec::with_capacity(alloc, EVENTS)?,
            shutters: Vec::new(alloc),
            limit: None,
        })
    }

    /// Where streams are registered.
    pub(crate) fn registry(&self) -> &Registry {
        self.poll.registry()
    }

    /// What else was ready when the last wait ended, by its place.
    pub(crate) fn other(&self, at: usize) -> Option<Noted> {
        self.others.get(at).copied()
    }

    /// How much else was ready then.
    pub(crate) fn others(&self) -> usize {
        self.others.len()
    }

    /// Shuts the streams of all clients.
    pub(crate) fn shut_all(&self) {
        'clients: for shutter in &self.shutters {
            shutter.shut();
        }
    }
}

/// Keeps what shuts a client's stream, under its key.
fn keep(shutters: &mut Vec<Shutter>, stream: &ClientStream, key: usize) -> Result<(), AllocError> {
    'keys: for _ in shutters.len()..=key {
        shutters.push(Shutter::none())?;
    }
    let shutter = stream.shutter()?;
    if let Some(place) = shutters.get_mut(key) {
        *place = shutter;
    }
    Ok(())
}

impl Readiness for MemberReadiness {
    ghost use Rattle.std.specs.Duration.{as_nanos};
    ghost use Rattle.std.specs.Option.{option_map};

    ghost waited = { λ r. option_map as_nanos r.limit };

    type Stream = ClientStream;

    type Waker = Waker;

    fn waker(&self) -> io::Result<Waker> {
        Waker::new(self.poll.registry(), WAKER)
    }

    fn register(&mut self, stream: &mut ClientStream, key: usize) -> bool {
        if key >= FIRST_OTHER || keep(&mut self.shutters, stream, key).is_err() {
            return false;
        }
        let fd = stream.stream().as_raw_fd();
        let interest = Interest::READABLE | Interest::WRITABLE;
        self.poll
            .registry()
            .register(&mut SourceFd(&fd), Token(key), interest)
            .is_ok()
    }

    fn wait(&mut self, limit: Option<Duration>) {
        self.limit = limit;
        let _ = self.poll.poll(&mut self.events, limit);
        note_clients(&self.events, &mut self.notices);
        note_others(&self.events, &mut self.others);
    }

    fn ready(&self) -> &[Notice] {
        &self.notices
    }
}
