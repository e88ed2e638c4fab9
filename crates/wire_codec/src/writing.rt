ghost use Rattle.std.specs.Prelude.{◌≡◌, ◌++◌, length, IfOk, OnOk};
ghost use Rattle.wire_codec.specs.Fits.{HasFrame};
ghost use Rattle.wire_codec.specs.Frame.{four, frame_body, frame_of};
ghost use Rattle.wire_codec.specs.Parts as parts;
ghost use Rattle.wire_codec.specs.Parts.{text_before};

use crate::length::text_length;
use crate::put_message::{put_text_before, put_text_behind};
use crate::put_numbers::put_four;
use crate::put_update::delta_of;
use group_message::Message;
use group_types::Payload;
use std::alloc::{AllocError, Global};

/// The frame of a message, which has one.
pub fn encode(alloc: Global, message: &Message) -> Result<Payload, AllocError>
    requires { HasFrame message.now }
    ensures { IfOk result (λ frame. frame ≡ frame_of message.now) }
{
    let len = spelled_length(message);
    let mut out = Vec::with_capacity(alloc, 4 + len as usize)?;
    put_before(&mut out, len, message)?;
    out.extend_from_slice(value_of(message))?;
    put_text_behind(&mut out, message)?;
    Payload::from_vec(out)
}

/// The bytes of a frame before the value that its message carries, and those behind it.
#[derive(Debug, Drop)]
pub struct Around {
    pub before: Payload,
    pub behind: Payload,
}

/// The frame of a message without its value, so that a sender writes the value from where it lies.
pub fn encode_around(alloc: Global, message: &Message) -> Result<Around, AllocError>
    requires { HasFrame message.now }
    ensures { IfOk result (λ around. around.before ++ parts.value_of message.now ++ around.behind
        ≡ frame_of message.now) }
{
    let mut before = Vec::with_capacity(alloc, 64)?;
    put_before(&mut before, spelled_length(message), message)?;
    let behind = behind(alloc, message)?;
    Ok(Around {
        before: Payload::from_vec(before)?,
        behind,
    })
}

fn behind(alloc: Global, message: &Message) -> Result<Payload, AllocError>
    requires { HasFrame message.now }
    ensures { IfOk result (λ behind. behind ≡ parts.text_behind message.now) }
{
    let mut behind = Vec::with_capacity(alloc, 32)?;
    put_text_behind(&mut behind, message)?;
    Payload::from_vec(behind)
}

/// The value that a message carries: the difference of an update, or the bytes of a block or of a row.
pub fn value_of(message: &Message) -> &[u8]
    ensures { result.now ≡ parts.value_of message.now }
{
    match message {
        Message::Update { update, .. } => delta_of(&update.body),
        Message::Block { bytes, .. } | Message::Row { bytes, .. } => bytes.bytes(),
        _ => &[],
    }
}

fn put_before(out: &mut Vec<u8>, len: u32, message: &Message) -> Result<(), AllocError>
    requires frame { HasFrame message.now }
    requires len { len ≡ length (frame_body message.now) }
    ensures { OnOk result (out.new.items ≡ out.old.items ++ (four (length (frame_body message.now))
        ++ text_before message.now)) }
{
    put_four(out, len)?;
    put_text_before(out, message)?;
    Ok(())
}

/// How many bytes stand behind the length in the frame of a message, which has one.
pub fn spelled_length(message: &Message) -> u32
    requires { HasFrame message.now }
    ensures { result ≡ length (frame_body message.now) }
{
    match text_length(message) {
        Some(len) => len,
        None => unreachable!(),
    }
}
