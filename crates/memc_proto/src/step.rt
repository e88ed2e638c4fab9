ghost use Rattle.std.specs.Prelude.{ℕ, List, ◌≡◌, ◌+◌, ◌≤◌, ◌++◌, length, take, drop, false, [], IfOk};
ghost use Rattle.memc_proto.specs.Line.{parsed_line};
ghost use Rattle.memc_proto.specs.Request.{store_request};
ghost use Rattle.memc_proto.specs.Reader.{StandsFor, is_ended};
ghost use Rattle.memc_proto.specs.Step.{IsBlockStep, IsReaderStep, IsStepWithin};

use crate::line::Line;
use crate::mode::Mode;
use crate::read_line::read_line;
use crate::request::{Refusal, Request};
use crate::store::{Store, store_act};
use group_types::Payload;
use memchr::memchr;
use std::alloc::{AllocError, Global};

/// The most bytes of a line with its end.
pub const LONGEST_LINE: usize = 32_768;

/// What a piece makes of what is kept.
#[derive(Drop)]
pub enum Step {
    /// A request is whole with the first `taken` bytes of the piece.
    Whole { request: Request, taken: usize },
    /// No request is, and the piece is kept behind what is kept.
    Grows,
    /// No request is, and the piece is kept from this place on, in this mode.
    Waits { mode: Mode, from: usize },
}

/// Takes the next piece to where the first request is whole.
pub(crate) fn first_step(
    alloc: Global,
    mode: &Mode,
    front: &[u8],
    piece: &[u8],
) -> Result<Step, AllocError>
    requires { is_ended mode.now ≡ false }
    ensures within { IfOk result (IsStepWithin piece.now) }
    ensures step { IfOk result (λ step. (rest : List ℕ) → StandsFor mode.now front.now rest → IsReaderStep mode.now front.now rest piece.now step) }
{
    match mode {
        Mode::InLine => line_step(alloc, front, piece),
        Mode::InBlock(store) => block_step(alloc, store, front, piece),
        Mode::Skipping { refusal, left } => Ok(skip_step(*refusal, *left, piece)),
        Mode::TooLong => Ok(Step::Waits {
            mode: Mode::TooLong,
            from: piece.len(),
        }),
        Mode::Ended => unreachable!(),
    }
}

/// The step in a line, of which `front` are the bytes so far.
pub(crate) fn line_step(alloc: Global, front: &[u8], piece: &[u8]) -> Result<Step, AllocError>
    ensures within { IfOk result (IsStepWithin piece.now) }
    ensures step { IfOk result (λ step. StandsFor Mode.InLine front.now front.now → IsReaderStep Mode.InLine front.now front.now piece.now step) }
{
    let room = LONGEST_LINE.saturating_sub(front.len());
    match memchr(b'\n', &piece[..piece.len().min(room)]) {
        Some(end) => after_line(
            alloc,
            read_joined(alloc, front, &piece[..end])?,
            piece,
            end + 1,
        ),
        None if piece.len() <= room => Ok(Step::Grows),
        None => Ok(Step::Waits {
            mode: Mode::TooLong,
            from: piece.len(),
        }),
    }
}

/// Reads a line that came in two parts.
fn read_joined(alloc: Global, front: &[u8], part: &[u8]) -> Result<Line, AllocError>
    ensures { IfOk result (λ read. read ≡ parsed_line (front.now ++ part.now)) }
{
    if front.is_empty() {
        return read_line(alloc, part);
    }
    read_line(alloc, &joined(alloc, front, part)?)
}

fn joined(alloc: Global, front: &[u8], part: &[u8]) -> Result<Vec<u8>, AllocError>
    ensures { IfOk result (λ bytes. bytes.items ≡ front.now ++ part.now) }
{
    let mut bytes = Vec::with_capacity(alloc, front.len().saturating_add(part.len()))?;
    bytes.extend_from_slice(front)?;
    bytes.extend_from_slice(part)?;
    Ok(bytes)
}

/// The step behind the end of a line, which is before the place `at` of the piece.
fn after_line(alloc: Global, line: Line, piece: &[u8], at: usize) -> Result<Step, AllocError>
    requires { at ≤ length piece.now }
    ensures within { IfOk result (IsStepWithin piece.now) }
    ensures step { IfOk result (IsBlockStep line piece.now at) }
{
    let left = piece.len() - at;
    match line {
        Line::Whole(request) => Ok(Step::Whole { request, taken: at }),
        Line::Stores(store) => {
            let len = store.len as usize + 2;
            if left < len {
                return Ok(Step::Waits {
                    mode: Mode::InBlock(store),
                    from: at,
                });
            }
            Ok(Step::Whole {
                request: whole_block(alloc, store, &[], &piece[at..at + len])?,
                taken: at + len,
            })
        }
        Line::Skips { refusal, len } => {
            if (left as u64) < len {
                return Ok(Step::Waits {
                    mode: Mode::Skipping {
                        refusal,
                        left: len - left as u64,
                    },
                    from: piece.len(),
                });
            }
            Ok(Step::Whole {
                request: Request::Refused(refusal),
                taken: at + len as usize,
            })
        }
    }
}

/// What a data block that came in two parts makes of its store.
fn whole_block(
    alloc: Global,
    store: Store,
    front: &[u8],
    part: &[u8],
) -> Result<Request, AllocError>
    requires { store.len ≤ length front.now + length part.now }
    ensures { IfOk result (λ request. request ≡ store_request store (front.now ++ part.now)) }
{
    let len = store.len as usize;
    let noreply = store.noreply;
    let mut block = joined(alloc, front, part)?;
    if &block[len..] != b"\r\n".as_slice() {
        return Ok(Request::Refused(Refusal::BadChunk));
    }
    block.truncate(len);
    let value = Payload::from_vec(block)?;
    Ok(Request::Change {
        act: store_act(store, value),
        noreply,
    })
}

/// The step in a data block, of which `front` are the bytes so far.
fn block_step(alloc: Global, store: &Store, front: &[u8], piece: &[u8]) -> Result<Step, AllocError>
    ensures within { IfOk result (IsStepWithin piece.now) }
    ensures step { IfOk result (λ step. (rest : List ℕ) → StandsFor (Mode.InBlock store.now) front.now rest → IsReaderStep (Mode.InBlock store.now) front.now rest piece.now step) }
{
    let missing = (store.len as usize + 2).saturating_sub(front.len());
    if piece.len() < missing {
        return Ok(Step::Grows);
    }
    Ok(Step::Whole {
        request: whole_block(alloc, store.clone()?, front, &piece[..missing])?,
        taken: missing,
    })
}

/// The step in the bytes that a refused line skips.
fn skip_step(refusal: Refusal, left: u64, piece: &[u8]) -> Step
    ensures within { IsStepWithin piece.now result }
    ensures step { (front rest : List ℕ) → StandsFor (Mode.Skipping refusal left) front rest → IsReaderStep (Mode.Skipping refusal left) front rest piece.now result }
{
    if (piece.len() as u64) < left {
        return Step::Waits {
            mode: Mode::Skipping {
                refusal,
                left: left - piece.len() as u64,
            },
            from: piece.len(),
        };
    }
    Step::Whole {
        request: Request::Refused(refusal),
        taken: left as usize,
    }
}
