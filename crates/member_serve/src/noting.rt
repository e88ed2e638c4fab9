ghost use Rattle.std.specs.Prelude.{◌+◌, ◌<◌, ◌≤◌, length, vec_len, vec_capacity};
ghost use Rattle.mio.specs.Events.{capacity as events_capacity, items};

use mio::event::Event;
use mio::{Events, Token};
use ready_worker::Notice;

/// The first token that is no key of a client.
pub(crate) const FIRST_OTHER: usize = 1 << 32;

/// Something else than a client's stream became ready, and its peer may have closed it.
#[derive(Clone, Copy)]
pub(crate) struct Noted {
    pub(crate) token: usize,
    pub(crate) ends: bool,
}

/// Notes which clients are ready.
pub(crate) fn note_clients(events: &Events, notices: &mut Vec<Notice>)
    requires room { events_capacity events.now ≤ vec_capacity notices.old }
    requires few { length (items events.now) ≤ events_capacity events.now }
    ensures { vec_capacity notices.old ≤ vec_capacity notices.new }
{
    notices.clear();
    'events: for event in events.iter() {
        note_client(noted_of(event), notices);
    }
}

/// Notes what an event says, if it is one of a client.
fn note_client(noted: Noted, notices: &mut Vec<Notice>)
    requires { vec_len notices.old < vec_capacity notices.old }
    ensures few { vec_len notices.new ≤ vec_len notices.old + 1 }
    ensures room { vec_capacity notices.old ≤ vec_capacity notices.new }
{
    let Noted { token: key, ends } = noted;
    if key >= FIRST_OTHER {
        return;
    }
    match notices.push(Notice { key, ends }) {
        Ok(()) => {}
        Err(_) => unreachable!(),
    }
}

/// Notes what else is ready.
pub(crate) fn note_others(events: &Events, others: &mut Vec<Noted>)
    requires room { events_capacity events.now ≤ vec_capacity others.old }
    requires few { length (items events.now) ≤ events_capacity events.now }
    ensures { vec_capacity others.old ≤ vec_capacity others.new }
{
    others.clear();
    'events: for event in events.iter() {
        note_other(noted_of(event), others);
    }
}

/// Notes what an event says, if it is none of a client.
fn note_other(noted: Noted, others: &mut Vec<Noted>)
    requires { vec_len others.old < vec_capacity others.old }
    ensures few { vec_len others.new ≤ vec_len others.old + 1 }
    ensures room { vec_capacity others.old ≤ vec_capacity others.new }
{
    if noted.token < FIRST_OTHER {
        return;
    }
    match others.push(noted) {
        Ok(()) => {}
        Err(_) => unreachable!(),
    }
}

/// What an event says.
fn noted_of(event: &Event) -> Noted {
    let Token(token) = event.token();
    Noted {
        token,
        ends: event.is_read_closed() || event.is_error(),
    }
}
