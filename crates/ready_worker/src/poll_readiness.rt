ghost use Rattle.std.specs.Prelude.{◌≡◌, ◌≤◌, length, map, vec_capacity};
ghost use Rattle.mio.specs.Events.{capacity as events_capacity, items};
ghost use Rattle.ready_worker.specs.Noticed.{notice_of};

use crate::notice::Notice;
use crate::readiness::{Readiness, Wake};
use mio::event::Event;
use mio::net::TcpStream;
use mio::{Events, Interest, Poll, Token, Waker};
use std::alloc::{AllocError, Global};
use std::io;
use std::time::Duration;

/// The most events that one wait gives.
const EVENTS: usize = 256;

/// The token of a worker's waker, which is the key of no stream.
const WAKER: Token = Token(usize::MAX);

/// The readiness of the system's streams.
#[derive(Drop)]
pub(crate) struct PollReadiness {
    poll: Poll,
    events: Events,
    notices: Vec<Notice>,
    limit: Option<Duration>,
    ghost room: { events_capacity events ≤ vec_capacity notices },
}

impl PollReadiness {
    /// What this poll tells.
    pub(crate) fn new(alloc: Global, poll: Poll) -> Result<PollReadiness, AllocError> {
        Ok(PollReadiness {
            poll,
            events: Events::with_capacity(alloc, EVENTS)?,
            notices: Vec::with_capacity(alloc, EVENTS)?,
            limit: None,
        })
    }
}

impl Readiness for PollReadiness {
    ghost use Rattle.std.specs.Duration.{as_nanos};
    ghost use Rattle.std.specs.Option.{option_map};

    ghost waited = { λ r. option_map as_nanos r.limit };

    type Stream = TcpStream;

    type Waker = Waker;

    fn waker(&self) -> io::Result<Waker> {
        Waker::new(self.poll.registry(), WAKER)
    }

    fn register(&mut self, stream: &mut TcpStream, key: usize) -> bool {
        let interest = Interest::READABLE | Interest::WRITABLE;
        self.poll
            .registry()
            .register(stream, Token(key), interest)
            .is_ok()
    }

    fn wait(&mut self, limit: Option<Duration>) {
        self.limit = limit;
        let _ = self.poll.poll(&mut self.events, limit);
        note(&self.events, &mut self.notices);
    }

    fn ready(&self) -> &[Notice] {
        &self.notices
    }
}

impl Wake for Waker {
    fn wake(&self) {
        let _ = Waker::wake(self);
    }
}

/// Notes what each event tells.
fn note(events: &Events, notices: &mut Vec<Notice>)
    requires room { events_capacity events.now ≤ vec_capacity notices.old }
    requires few { length (items events.now) ≤ events_capacity events.now }
    ensures notices { notices.new.items ≡ map notice_of (items events.now) }
    ensures room { vec_capacity notices.old ≤ vec_capacity notices.new }
{
    notices.clear();
    'events: for event in events.iter() {
        match notices.push(notice_of(event)) {
            Ok(()) => {}
            Err(_) => unreachable!(),
        }
    }
}

/// What an event tells.
fn notice_of(event: &Event) -> Notice
    ensures { result ≡ notice_of event.now }
{
    let Token(key) = event.token();
    Notice {
        key,
        ends: event.is_read_closed() || event.is_error(),
    }
}
