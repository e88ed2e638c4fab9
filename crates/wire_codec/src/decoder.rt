ghost use Rattle.std.specs.Prelude.{◌≡◌, ◌↔◌, ◌≤◌, ◌+◌, ◌^◌, ℕ, [], ◌∷◌, length, true, false, IfOk, IsTrue};
ghost use Rattle.wire_codec.specs.Cutting.{DecodesOn};
ghost use Rattle.wire_codec.specs.Stream.{CanBeFed, Feeds, HasDecoded};

use crate::cut::{Cut, first_frame};
use crate::message_list::MessageList;
use group_message::Message;
use std::alloc::{AllocError, Global};
use std::marker::Model;

/// Why a piece gave no messages: the frame that begins at byte `at` of the stream is no spelling, or there was no memory.
#[derive(Clone, Copy, Debug, PartialEq, Eq)]
pub enum DecodeFault {
    BadFrame { at: u64 },
    Want,
}

impl From<AllocError> for DecodeFault {
    ghost use Rattle.wire_codec.specs.declared.decoder.DecodeFault.TheVariants.{Want};

    ghost from_gives = { λ _ fault. fault ≡ Want };

    fn from(_: AllocError) -> DecodeFault {
        DecodeFault::Want
    }
}

/// Reads messages from a stream of frames that comes in pieces of any size. It keeps at most the bytes of one frame, and
/// of these no more than were fed.
#[derive(Drop)]
pub struct Decoder {
    alloc: Global,
    begun: u64,
    bad: bool,
    front: Vec<u8>,
}

impl Model for Decoder {
    ghost use Rattle.wire_codec.specs.Stream.{DecoderState};

    ghost Value = { DecoderState };

    ghost view = { λ d. record { begun = d.begun; bad = d.bad; front = d.front.items } };
}

impl Decoder {
    ghost use Rattle.std.specs.Prelude.{Ok, Err, ◌≢◌, IfErr};
    ghost use Rattle.wire_codec.specs.declared.decoder.DecodeFault.TheVariants.{BadFrame, Want};

    /// A decoder to which no byte was fed.
    pub fn new(alloc: Global) -> Decoder
        ensures read { HasDecoded result [] [] }
        ensures fresh { result ≡ record { begun = 0; bad = false; front = [] } }
    {
        waiting(0, Vec::new(alloc), alloc)
    }

    /// Takes the next piece of the stream, and gives the messages that are whole with it. Where a frame is no spelling the
    /// messages before it are given first; then, and at each later call, that is the answer.
    pub fn feed(&mut self, piece: &[u8]) -> Result<MessageList, DecodeFault>
        requires { CanBeFed self.old (length piece.now) }
        ensures messages { IfOk result (λ given. Feeds self.old self.new piece.now given) }
        ensures bad_frame { (at : ℕ) → result ≡ Err (BadFrame at)
            → (self.new.bad ≡ true) × (self.new.begun ≡ at) × Feeds self.old self.new piece.now [] }
        ensures due { self.new.bad ≡ true → IfOk result (λ given. given ≢ []) }
        ensures emptied { self.old.bad ≡ false → self.new.bad ≡ true → self.new.front ≡ [] }
        ensures again { self.old.bad ≡ true → (result ≡ Err (BadFrame self.old.begun)) × (self.new ≡ self.old) }
        ensures want { result ≡ Err Want → self.new ≡ self.old }
    {
        if self.bad {
            return Err(DecodeFault::BadFrame { at: self.begun });
        }
        match first_frame(self.alloc, &self.front, piece)? {
            Cut::Partial => {
                self.front.extend_from_slice(piece)?;
                Ok(none(self.alloc))
            }
            Cut::Bad => {
                *self = spoilt(self.begun, self.alloc);
                Err(DecodeFault::BadFrame { at: self.begun })
            }
            Cut::Whole { message, taken } => {
                let at = self.begun + (self.front.len() + taken) as u64;
                let (messages, decoder) = read_behind(
                    self.alloc,
                    at,
                    message,
                    piece.split_at(taken).1,
                )?;
                *self = decoder;
                Ok(MessageList::from(messages))
            }
        }
    }

    /// Whether a piece of so many bytes may be fed: with it a stream has at most 2^62.
    pub fn takes(&self, len: usize) -> bool
        ensures { IsTrue result ↔ CanBeFed self.now len }
    {
        let fed = self.begun.saturating_add(self.front.len() as u64);
        self.bad || fed.saturating_add(len as u64) <= 1 << 62
    }

    /// Whether no byte was fed of a frame that isn't whole. Of a stream with a bad frame nothing is said.
    pub fn at_start(&self) -> bool
        ensures { IsTrue result ↔ (self.now.front ≡ []) }
    {
        self.front.is_empty()
    }
}

fn none(alloc: Global) -> MessageList
    ensures { result ≡ [] }
{
    MessageList::from(Vec::new(alloc))
}

/// A decoder that waits for the rest of a frame.
fn waiting(begun: u64, front: Vec<u8>, alloc: Global) -> Decoder
    ensures { result ≡ record { begun = begun; bad = false; front = front.items } }
{
    Decoder {
        alloc,
        begun,
        bad: false,
        front,
    }
}

/// A decoder that has met a frame that is no spelling.
fn spoilt(begun: u64, alloc: Global) -> Decoder
    ensures { result ≡ record { begun = begun; bad = true; front = [] } }
{
    Decoder {
        alloc,
        begun,
        bad: true,
        front: Vec::new(alloc),
    }
}

/// A message and those that are whole in the text behind it, which begins at this place of the stream, and a decoder
/// that was fed all of it.
fn read_behind(
    alloc: Global,
    at: u64,
    first: Message,
    text: &[u8],
) -> Result<(Vec<Message>, Decoder), AllocError>
    requires { at + length text.now ≤ 2 ^ 62 }
    ensures read { IfOk result (λ read. DecodesOn at read.1 text.now (first ∷ []) read.0.items) }
    ensures emptied { IfOk result (λ read. read.1.bad ≡ true → read.1.front ≡ []) }
{
    let mut messages = Vec::with_capacity(alloc, 8)?;
    messages.push(first)?;
    read_on(alloc, at, messages, text)
}

/// Those found, then those that are whole in a text that begins at this place of the stream, and a decoder that was fed
/// that text.
fn read_on(
    alloc: Global,
    at: u64,
    found: Vec<Message>,
    text: &[u8],
) -> Result<(Vec<Message>, Decoder), AllocError>
    requires { at + length text.now ≤ 2 ^ 62 }
    ensures read { IfOk result (λ read. DecodesOn at read.1 text.now found.items read.0.items) }
    ensures emptied { IfOk result (λ read. read.1.bad ≡ true → read.1.front ≡ []) }
{
    let mut messages = found;
    let mut begun = at;
    let mut rest = text;
    'frames: loop {
        match first_frame(alloc, &[], rest)? {
            Cut::Whole { message, taken } => {
                messages.push(message)?;
                begun += taken as u64;
                rest = rest.split_at(taken).1;
            }
            Cut::Partial => {
                let front = Vec::from_slice(alloc, rest)?;
                return Ok((messages, waiting(begun, front, alloc)));
            }
            Cut::Bad => return Ok((messages, spoilt(begun, alloc))),
        }
    }
}
