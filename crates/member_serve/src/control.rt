ghost use Rattle.std.specs.Prelude.{◌<◌, ◌≤◌, vec_len};

use crate::control_line::ControlLine;
use crate::said::Said;
use member_links::{Arrival, Port};
use mio::net::TcpStream;
use mio::{Interest, Registry, Token};
use std::alloc::Global;
use std::io;

/// The token of the port where operators connect.
pub(crate) const CONTROL_PORT: usize = (1 << 40) + 2;

/// The first token of an operator's stream: all below are no such.
pub(crate) const FIRST_CONTROL: usize = 1 << 48;

/// The most connections of operators.
const MOST_LINES: usize = 16;

/// The connections of operators.
#[derive(Drop)]
pub(crate) struct Control {
    alloc: Global,
    port: Port,
    lines: Vec<ControlLine>,
    next_token: usize,
    turn: usize,
    ghost few: { vec_len lines ≤ 16 },
}

impl Control {
    /// No connection yet at this port.
    pub(crate) fn new(alloc: Global, port: Port) -> Control {
        Control {
            alloc,
            port,
            lines: Vec::new(alloc),
            next_token: FIRST_CONTROL,
            turn: 0,
        }
    }

    /// Connections are told of from now on.
    pub(crate) fn watch(&mut self, registry: &Registry) -> io::Result<()> {
        self.port.watch(registry, CONTROL_PORT)
    }

    /// What is watched under a token became ready.
    pub(crate) fn note_ready(&mut self, token: usize) {
        if token == CONTROL_PORT {
            return self.port.note_ready();
        }
        'lines: for line in self.lines.iter_mut() {
            line.note_ready(token);
        }
    }

    /// Reads what was said.
    pub(crate) fn read(&mut self) {
        'lines: for line in self.lines.iter_mut() {
            line.read();
        }
    }

    /// Accepts who came.
    pub(crate) fn accept_all(&mut self, registry: &Registry) {
        'streams: for _ in 0..MOST_LINES {
            match self.port.accept() {
                Arrival::Stream(stream) => self.admit(registry, stream),
                Arrival::None | Arrival::Failed(_) => return,
            }
        }
    }

    fn admit(&mut self, registry: &Registry, stream: TcpStream) {
        let mut stream = stream;
        let token = self.next_token;
        let interest = Interest::READABLE | Interest::WRITABLE;
        let watched = registry
            .register(&mut stream, Token(token), interest)
            .is_ok();
        if !watched {
            return;
        }
        self.make_room();
        self.next_token = token.saturating_add(1);
        let line = ControlLine::new(self.alloc, token, stream);
        let _ = self.lines.push(line);
    }

    // Lets the youngest connection go where there are as many as there may be: the oldest are those of who watches the program.
    fn make_room(&mut self)
        ensures { vec_len self.new.lines < 16 }
    {
        if self.lines.len() >= MOST_LINES {
            self.lines.pop();
        }
    }

    /// What came next, and on which connection: each has its turn.
    pub(crate) fn next(&mut self) -> Option<(usize, Said)> {
        let (first, count) = (self.turn, self.lines.len());
        'lines: for step in 0..count {
            let at = first.wrapping_add(step) % count;
            if let Some(said) = self.next_of(at) {
                self.turn = at.wrapping_add(1);
                return Some((at, said));
            }
        }
        None
    }

    // What came next on a connection.
    fn next_of(&mut self, at: usize) -> Option<Said> {
        match self.lines.get_mut(at) {
            Some(line) => line.next(self.alloc).unwrap_or(None),
            None => None,
        }
    }

    /// Answers a connection.
    pub(crate) fn answer(&mut self, at: usize, text: &str) {
        if let Some(line) = self.lines.get_mut(at) {
            line.answer(text);
        }
    }

    /// Answers a connection, which ends behind that.
    pub(crate) fn answer_last(&mut self, at: usize, text: &str) {
        if let Some(line) = self.lines.get_mut(at) {
            line.answer_last(text);
        }
    }

    /// Writes what waits, and lets go of connections that are over.
    pub(crate) fn write_out(&mut self) {
        'lines: for line in self.lines.iter_mut() {
            line.write_out();
        }
        self.lines.retain(|line| !line.is_over());
    }
}
