ghost use Rattle.std.specs.Prelude.{◌≡◌, ◌++◌, ℕ, List, IfOk, []};
ghost use Rattle.memc_proto.specs.Reads.{Begins, is_quit};
ghost use Rattle.memc_proto.specs.Reader.{HasRead, IsTooLong};
ghost use Rattle.memc_proto.specs.Step.{ReadsOn};

use crate::mode::Mode;
use crate::request::{Request, Requests};
use crate::step::{Step, first_step, line_step};
use std::alloc::{AllocError, Global};
use std::marker::Model;

/// Reads requests from bytes that come in pieces of any size. It keeps at most the bytes of one
/// request, and goes over each byte once.
#[derive(Drop)]
pub struct Reader {
    alloc: Global,
    mode: Mode,
    front: Vec<u8>,
}

impl Model for Reader {
    ghost use Rattle.memc_proto.specs.Reader.{ReaderState};

    ghost Value = { ReaderState };

    ghost view = { λ r. record { mode = r.mode; front = r.front.items } };
}

impl Reader {
    ghost use Rattle.std.specs.Prelude.{◌↔◌, false, IsTrue, OnErr};
    ghost use Rattle.std.specs.List.{list_any};
    ghost use Rattle.memc_proto.specs.declared.request.Request.{Request};

    /// A reader that was fed nothing.
    pub fn new(alloc: Global) -> Reader
        ensures { HasRead result [] [] }
    {
        Reader {
            alloc,
            mode: Mode::InLine,
            front: Vec::new(alloc),
        }
    }

    /// Takes the next piece of the input, and gives the requests that are whole with it.
    pub fn feed(&mut self, piece: &[u8]) -> Result<Requests, AllocError>
        ensures requests { IfOk result (λ given. (input : List ℕ) (before : List Request) → HasRead self.old input before → HasRead self.new (input ++ piece.now) (before ++ given)) }
        ensures want { OnErr result (self.new ≡ self.old) }
    {
        if self.mode.is_ended() {
            return Ok(none(self.alloc));
        }
        match first_step(self.alloc, &self.mode, &self.front, piece)? {
            Step::Grows => {
                self.front.extend_from_slice(piece)?;
                Ok(none(self.alloc))
            }
            Step::Waits { mode, from } => {
                *self = keeping(self.alloc, mode, piece.split_at(from).1)?;
                Ok(none(self.alloc))
            }
            Step::Whole { request, taken } => {
                let (requests, reader) = read_behind(self.alloc, request, piece.split_at(taken).1)?;
                *self = reader;
                Ok(Requests::from(requests))
            }
        }
    }

    /// Whether no byte was fed of a request that is not whole. After a quit nothing is said.
    pub fn at_start(&self) -> bool
        ensures { (input : List ℕ) (requests : List Request) → (read : HasRead self.now input requests) → list_any is_quit requests ≡ false → (IsTrue result ↔ (read.rest ≡ [])) }
    {
        matches!(self.mode, Mode::InLine) && self.front.is_empty()
    }

    /// Whether more bytes of a line were fed than a line may have, and none of those that it may
    /// have is its end. After a quit nothing is said.
    pub fn too_long(&self) -> bool
        ensures { (input : List ℕ) (requests : List Request) → (read : HasRead self.now input requests) → list_any is_quit requests ≡ false → (IsTrue result ↔ IsTooLong read.rest) }
    {
        matches!(self.mode, Mode::TooLong)
    }
}

/// A reader that keeps these bytes in this mode.
fn keeping(alloc: Global, mode: Mode, bytes: &[u8]) -> Result<Reader, AllocError>
    ensures { IfOk result (λ reader. reader ≡ record { mode = mode; front = bytes.now }) }
{
    let len = match &mode {
        Mode::InBlock(store) => bytes.len().max(store.len as usize + 2),
        _ => bytes.len(),
    };
    let mut front = Vec::with_capacity(alloc, len)?;
    front.extend_from_slice(bytes)?;
    Ok(Reader { alloc, mode, front })
}

fn none(alloc: Global) -> Requests
    ensures { result ≡ [] }
{
    Requests::from(Vec::new(alloc))
}

/// A request and those that are whole in the text behind it, and a reader that was fed all of it.
fn read_behind(
    alloc: Global,
    first: Request,
    text: &[u8],
) -> Result<(Vec<Request>, Reader), AllocError>
    ensures { IfOk result (λ read. (input : List ℕ) → Begins input first text.now → HasRead read.1 input read.0.items) }
{
    let ends = first.is_quit();
    let mut requests = Vec::with_capacity(alloc, 8)?;
    requests.push(first)?;
    if ends {
        return Ok((requests, keeping(alloc, Mode::Ended, &[])?));
    }
    read_on(alloc, requests, text)
}

/// Those found, then those that are whole in a text that begins a line, and a reader that was fed
/// that text.
fn read_on(
    alloc: Global,
    found: Vec<Request>,
    text: &[u8],
) -> Result<(Vec<Request>, Reader), AllocError>
    ensures { IfOk result (λ read. ReadsOn read.1 text.now found.items read.0.items) }
{
    let mut requests = found;
    let mut rest = text;
    'requests: loop {
        match line_step(alloc, &[], rest)? {
            Step::Whole { request, taken } => {
                let ends = request.is_quit();
                requests.push(request)?;
                if ends {
                    return Ok((requests, keeping(alloc, Mode::Ended, &[])?));
                }
                rest = rest.split_at(taken).1;
            }
            Step::Grows => return Ok((requests, keeping(alloc, Mode::InLine, rest)?)),
            Step::Waits { mode, from } => {
                return Ok((requests, keeping(alloc, mode, rest.split_at(from).1)?));
            }
        }
    }
}
