ghost use Rattle.std.specs.Prelude.{◌≡◌, ◌≤◌, ◌<◌, ◌+◌, ◌++◌, length, drop, slice_index, IfOk, IfSome, IfNone};
ghost use Rattle.wire_codec.specs.Cutting.{IsCutWithin, IsFrameCut};
ghost use Rattle.wire_codec.specs.Reading.{Gives, message_in};
ghost use Rattle.wire_codec.specs.Stream.{IsPartial, announced};

use crate::fault::ReadFault;
use crate::take_message::read_message;
use group_message::Message;
use std::alloc::{AllocError, Global};

/// The most bytes behind a frame's length.
pub const MOST: u32 = 134_217_728;

/// What stands at the front of bytes: less than a frame, one that is no spelling, or one of a message, which ends
/// behind `taken` bytes of the piece.
#[derive(Drop)]
pub(crate) enum Cut {
    Partial,
    Bad,
    Whole { message: Message, taken: usize },
}

/// The first frame of what is kept, which is less than a frame, and of a piece behind it.
pub(crate) fn first_frame(alloc: Global, front: &[u8], piece: &[u8]) -> Result<Cut, AllocError>
    ensures within { IfOk result (λ cut. IsCutWithin piece.now cut) }
    ensures is { IfOk result (λ cut. IsPartial front.now → IsFrameCut front.now piece.now cut) }
{
    let Some(len) = announced_len(front, piece) else {
        return Ok(Cut::Partial);
    };
    if len < 1 || MOST < len {
        return Ok(Cut::Bad);
    }
    let whole = 4 + len as usize;
    if front.len() + piece.len() < whole {
        return Ok(Cut::Partial);
    }
    let taken = whole.saturating_sub(front.len());
    match joined_message(alloc, front, piece.split_at(taken).0) {
        Ok(message) => Ok(Cut::Whole { message, taken }),
        Err(ReadFault::NoSpelling) => Ok(Cut::Bad),
        Err(ReadFault::Want) => Err(AllocError),
    }
}

/// The length that the first four bytes say, if they are there.
pub fn announced_len(front: &[u8], piece: &[u8]) -> Option<u32>
    ensures some { IfSome result (λ len. (4 ≤ length front.now + length piece.now)
        × (len ≡ announced (front.now ++ piece.now))) }
    ensures none { IfNone result (length front.now + length piece.now < 4) }
{
    if front.len() + piece.len() < 4 {
        return None;
    }
    Some(u32::from_be_bytes([
        byte_at(front, piece, 0),
        byte_at(front, piece, 1),
        byte_at(front, piece, 2),
        byte_at(front, piece, 3),
    ]))
}

fn byte_at(front: &[u8], piece: &[u8], i: usize) -> u8
    requires { i < length front.now + length piece.now }
    ensures { result ≡ slice_index (front.now ++ piece.now) i }
{
    if i < front.len() {
        front[i]
    } else {
        piece[i - front.len()]
    }
}

/// The message behind the first four bytes, whose text ends with the piece.
fn joined_message(alloc: Global, front: &[u8], piece: &[u8]) -> Result<Message, ReadFault>
    requires { 4 ≤ length front.now + length piece.now }
    ensures { Gives (λ m. m) result (message_in (drop 4 (front.now ++ piece.now))) }
{
    if front.len() <= 4 {
        return read_message(alloc, piece.split_at(4 - front.len()).1);
    }
    let text = joined(alloc, front.split_at(4).1, piece)?;
    read_message(alloc, &text)
}

fn joined(alloc: Global, front: &[u8], piece: &[u8]) -> Result<Vec<u8>, AllocError>
    ensures { IfOk result (λ text. text.items ≡ front.now ++ piece.now) }
{
    let mut text = Vec::with_capacity(alloc, front.len() + piece.len())?;
    text.extend_from_slice(front)?;
    text.extend_from_slice(piece)?;
    Ok(text)
}
