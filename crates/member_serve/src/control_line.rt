ghost use Rattle.std.specs.Prelude.{◌≡◌, ◌<◌, ◌≤◌, length, drop, vec_len, IfSome};

use crate::page::{is_request, page_of};
use crate::place::place_of;
use crate::said::Said;
use edge_io::{Failed, Sink};
use mio::net::TcpStream;
use outbox::{Outbox, Reading, Sending, TryEdge, TryStream};
use std::alloc::{AllocError, Global};

/// The most bytes that one read takes.
const PIECE: usize = 4_096;

/// The most reads of a turn.
const MOST_PIECES: u32 = 64;

/// The longest line.
const LONGEST: usize = 4_096;

/// A connection of an operator.
#[derive(Drop)]
pub(crate) struct ControlLine {
    token: usize,
    stream: TryEdge<TcpStream>,
    text: Vec<u8>,
    outbox: Outbox,
    is_ready: bool,
    has_ended: bool,
    is_over: bool,
    ghost short: { vec_len text ≤ 8192 },
}

impl ControlLine {
    /// A connection of which nothing was read, watched under this token.
    pub(crate) fn new(alloc: Global, token: usize, stream: TcpStream) -> ControlLine {
        ControlLine {
            token,
            stream: TryEdge::new(stream),
            text: Vec::new(alloc),
            outbox: Outbox::new(alloc),
            is_ready: false,
            has_ended: false,
            is_over: false,
        }
    }

    /// What is watched under a token became ready.
    pub(crate) fn note_ready(&mut self, token: usize) {
        self.is_ready = self.is_ready || self.token == token;
    }

    /// Whether it ended or broke, and all that was said was answered.
    pub(crate) fn is_over(&self) -> bool {
        self.is_over
    }

    /// Reads what came.
    pub(crate) fn read(&mut self) {
        'pieces: for _ in 0..MOST_PIECES {
            if !self.is_ready || self.text.len() > LONGEST {
                return;
            }
            self.read_piece();
        }
    }

    // Reads the next piece.
    fn read_piece(&mut self)
        requires { vec_len self.old.text ≤ 4096 }
    {
        let mut piece = [0u8; PIECE];
        match self.stream.try_read(&mut piece) {
            Ok(Reading::Came(n)) => self.take(&piece[..n]),
            Ok(Reading::Waits) => self.is_ready = false,
            Ok(Reading::Ended) | Err(Failed) => {
                self.is_ready = false;
                self.is_over = true;
            }
        }
    }

    // A piece came: without memory for it the connection is over.
    fn take(&mut self, piece: &[u8])
        requires text { vec_len self.old.text ≤ 4096 }
        requires piece { length piece.now ≤ 4096 }
    {
        if self.text.extend_from_slice(piece).is_err() {
            self.is_ready = false;
            self.is_over = true;
        }
    }

    /// What came next that is whole: what is too long ends the connection.
    pub(crate) fn next(&mut self, alloc: Global) -> Result<Option<Said>, AllocError> {
        if self.has_ended {
            return Ok(None);
        }
        if is_request(&self.text) {
            return Ok(self.next_request());
        }
        self.next_line(alloc)
    }

    // The page that is asked for, once the whole head of its request came.
    fn next_request(&mut self) -> Option<Said> {
        match page_of(&self.text) {
            Some(page) => Some(Said::Request(page)),
            None => {
                self.end_where_long();
                None
            }
        }
    }

    fn next_line(&mut self, alloc: Global) -> Result<Option<Said>, AllocError> {
        let Some(at) = place_of(b'\n', &self.text) else {
            self.end_where_long();
            return Ok(None);
        };
        let line = Vec::from_slice(alloc, &self.text[..at])?;
        cut_front(&mut self.text, at + 1);
        Ok(Some(Said::Line(line)))
    }

    fn end_where_long(&mut self) {
        self.is_over = self.is_over || self.text.len() > LONGEST;
    }

    /// Puts an answer behind all others.
    pub(crate) fn answer(&mut self, text: &str) {
        if self.outbox.write(text.as_bytes()).is_err() {
            self.is_over = true;
        }
    }

    /// Puts the last answer behind all others: once it is written the connection is over.
    pub(crate) fn answer_last(&mut self, text: &str) {
        self.answer(text);
        self.has_ended = true;
    }

    /// Writes what waits, as far as the stream takes it.
    pub(crate) fn write_out(&mut self) {
        match self.outbox.write_out(&mut self.stream, usize::MAX) {
            Ok(Sending::All) => self.is_over = self.is_over || self.has_ended,
            Ok(_) => {}
            Err(Failed) => self.is_over = true,
        }
    }
}

/// Takes the first so many bytes away.
fn cut_front(text: &mut Vec<u8>, count: usize)
    requires { count ≤ vec_len text.old }
    ensures { text.new.items ≡ drop count text.old.items }
{
    let rest = text.len() - count;
    text.copy_within(count.., 0);
    text.truncate(rest);
}
