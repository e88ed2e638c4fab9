ghost use Rattle.std.specs.Prelude.{◌≡◌};
ghost use Rattle.wire_codec.specs.Reading.{Gives};
ghost use Rattle.link_frames.specs.Texts as spec;
ghost use Rattle.link_frames.specs.Texts.{frame_at, frame_in, said_at};

use crate::frame::{Frame, NameSet};
use crate::take_act::{take_ask, take_trace};
use crate::take_answer::take_told;
use crate::take_hello::take_hello;
use group_types::Shape;
use std::alloc::Global;
use wire_codec::fields::{ReadFault, read_message, take_eight, take_four, take_one};

/// The frame that a text is.
#[tactic(auto, unfolding(crate::specs::Texts::frame_in))]
pub(crate) fn read_frame(alloc: Global, shape: Shape, text: &[u8]) -> Result<Frame, ReadFault>
    ensures { Gives (λ f. f) result (frame_in shape text.now) }
{
    if is_message(text) {
        return Ok(Frame::Message(read_message(alloc, text)?));
    }
    let (frame, rest) = take_frame(alloc, shape, text)?;
    match rest {
        [] => Ok(frame),
        [_, ..] => Err(ReadFault::NoSpelling),
    }
}

/// Whether a text is of one of the kinds below 10.
fn is_message(text: &[u8]) -> bool
    ensures { result ≡ spec.is_message text.now }
{
    match text {
        [kind, ..] => *kind < 10,
        [] => false,
    }
}

#[tactic(auto, unfolding(crate::specs::Texts::frame_at))]
fn take_frame(alloc: Global, shape: Shape, bytes: &[u8]) -> Result<(Frame, &[u8]), ReadFault>
    ensures { Gives (λ x. (x.0, x.1.now)) result (frame_at shape bytes.now) }
{
    let (kind, rest) = take_one(bytes)?;
    match kind {
        11 => {
            let (hello, rest) = match take_hello(rest) {
                Ok(taken) => taken,
                Err(fault) => return Err(fault),
            };
            Ok((Frame::Hello(hello), rest))
        }
        12 => take_said(shape, rest),
        13 => {
            let (number, rest) = take_eight(rest)?;
            Ok((Frame::Ping(number), rest))
        }
        14 => {
            let (number, rest) = take_eight(rest)?;
            Ok((Frame::Pong(number), rest))
        }
        15 => {
            let (request, rest) = take_ask(alloc, rest)?;
            Ok((Frame::Request(request), rest))
        }
        16 => {
            let (request, rest) = take_trace(rest)?;
            Ok((Frame::Request(request), rest))
        }
        17 => {
            let (told, rest) = take_told(alloc, rest)?;
            Ok((Frame::Told(told), rest))
        }
        _ => Err(ReadFault::NoSpelling),
    }
}

/// A set of names, each of the group.
#[tactic(auto, unfolding(crate::specs::Texts::said_at))]
fn take_said(shape: Shape, bytes: &[u8]) -> Result<(Frame, &[u8]), ReadFault>
    ensures { Gives (λ x. (x.0, x.1.now)) result (said_at shape bytes.now) }
{
    let (names, rest) = take_four(bytes)?;
    if names >= 1 << (shape.k() + shape.m()) {
        return Err(ReadFault::NoSpelling);
    }
    Ok((Frame::Said(NameSet(names)), rest))
}
