ghost use Rattle.std.specs.Prelude.{◌≤◌, vec_len};

use crate::heard::Heard;
use crate::newcomer::{Greeted, Guest, Newcomer};
use crate::pipe::Pipe;
use crate::port::{Arrival, Port};
use crate::tokens::{LINK_PORT, LinkTokens};
use group_types::Shape;
use mio::Registry;
use mio::net::TcpStream;
use std::alloc::Global;
use std::io;

/// The most connections that haven't greeted yet.
const MOST_NEWCOMERS: usize = 32;

/// How long the greeting of one that came is waited for, in milliseconds.
const GREETING_WAIT: u64 = 10_000;

/// Where other members come in, of all groups that this one's machine has a member of: who of them is greeted is known once they
/// greet.
#[derive(Drop)]
pub struct Door {
    alloc: Global,
    shape: Shape,
    port: Port,
    tokens: LinkTokens,
    newcomers: Vec<Newcomer>,
    ghost few: { vec_len newcomers ≤ 32 },
}

impl Door {
    /// Nobody came yet to this port, to groups of this shape. Those who come are told of under these tokens.
    pub fn new(alloc: Global, shape: Shape, port: Port, tokens: LinkTokens) -> Door {
        Door {
            alloc,
            shape,
            port,
            tokens,
            newcomers: Vec::new(alloc),
        }
    }

    /// Connections of other members are told of from now on.
    pub fn watch(&mut self, registry: &Registry) -> io::Result<()> {
        self.port.watch(registry, LINK_PORT)
    }

    /// What is watched under a token became ready, and its peer may have closed it.
    pub fn note_ready(&mut self, token: usize, ends: bool) {
        if token == LINK_PORT {
            return self.port.note_ready();
        }
        'newcomers: for newcomer in self.newcomers.iter_mut() {
            newcomer.pipe.note_ready(token, ends);
        }
    }

    /// Accepts who came, at a time in milliseconds of a clock that never goes back.
    pub fn accept_all(&mut self, registry: &Registry, now: u64) {
        'streams: for _ in 0..MOST_NEWCOMERS {
            match self.port.accept() {
                Arrival::Stream(stream) => self.admit(registry, stream, now),
                Arrival::None | Arrival::Failed(_) => return,
            }
        }
    }

    // Waits for the greeting of one that came, where few do.
    fn admit(&mut self, registry: &Registry, stream: TcpStream, now: u64) {
        if self.newcomers.len() >= MOST_NEWCOMERS {
            return;
        }
        let token = self.tokens.take();
        if let Ok(pipe) = Pipe::watched(self.alloc, self.shape, registry, token, stream) {
            let until = now.saturating_add(GREETING_WAIT);
            self.keep(Newcomer { pipe, until }, now);
        }
    }

    /// How many came and haven't greeted yet.
    pub fn len(&self) -> usize {
        self.newcomers.len()
    }

    /// What the one at a place said.
    pub fn hear(&mut self, place: usize, now: u64) -> Guest {
        if place >= self.newcomers.len() {
            return Guest::None;
        }
        let mut newcomer = self.newcomers.swap_remove(place);
        match newcomer.pipe.hear() {
            Heard::Hello(hello) => {
                let pipe = newcomer.pipe;
                return Guest::Greets(Greeted { pipe, hello });
            }
            Heard::Nothing => self.keep(newcomer, now),
            Heard::Broken => {}
            Heard::Said(_) | Heard::Other => return Guest::Stranger,
        }
        Guest::None
    }

    // Waits for the greeting of one that came, if it isn't late and few wait.
    fn keep(&mut self, newcomer: Newcomer, now: u64) {
        if now < newcomer.until && self.newcomers.len() < MOST_NEWCOMERS {
            let _ = self.newcomers.push(newcomer);
        }
    }
}
