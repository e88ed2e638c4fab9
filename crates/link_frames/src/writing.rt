ghost use Rattle.std.specs.Prelude.{◌≡◌, ◌++◌, length, IfOk, OnOk, OnErr};
ghost use Rattle.crc32c.specs.Register as crc;
ghost use Rattle.link_frames.specs.Limits.{FitsLink};
ghost use Rattle.link_frames.specs.Links.{link_frame};
ghost use Rattle.link_frames.specs.Spelling.{link_before, link_behind, link_text, link_value};

use crate::frame::Frame;
use crate::put_frame::{carried_value, put_before, put_behind};
use crc32c::{checksum, extended};
use std::alloc::{AllocError, Global};
use wire_codec::fields::put_four;

/// Writes a frame with its sum behind what stands in `out`. Its value is copied once.
pub fn encode_into(alloc: Global, out: &mut Vec<u8>, frame: &Frame) -> Result<(), AllocError>
    requires { FitsLink frame.now }
    ensures written { OnOk result (out.new.items ≡ out.old.items ++ link_frame frame.now) }
    ensures want { OnErr result (out.new.items ≡ out.old.items) }
{
    let before = before(alloc, frame)?;
    let mut behind = behind(alloc, frame)?;
    let value = carried_value(frame);
    let len = total(frame, &before, value, &behind).to_be_bytes();
    let sum = sum_of(&len, &before, value, &behind);
    put_four(&mut behind, sum)?;
    append(out, &len, &before, value, &behind)?;
    Ok(())
}

fn before(alloc: Global, frame: &Frame) -> Result<Vec<u8>, AllocError>
    requires { FitsLink frame.now }
    ensures { IfOk result (λ text. text.items ≡ link_before frame.now) }
{
    let mut text = Vec::with_capacity(alloc, 96)?;
    put_before(&mut text, frame)?;
    Ok(text)
}

fn behind(alloc: Global, frame: &Frame) -> Result<Vec<u8>, AllocError>
    requires { FitsLink frame.now }
    ensures { IfOk result (λ text. text.items ≡ link_behind frame.now) }
{
    let mut text = Vec::with_capacity(alloc, 32)?;
    put_behind(&mut text, frame)?;
    Ok(text)
}

/// How many bytes the text of a frame has.
fn total(frame: &Frame, before: &[u8], value: &[u8], behind: &[u8]) -> u32
    requires fits { FitsLink frame.now }
    requires before { before.now ≡ link_before frame.now }
    requires value { value.now ≡ link_value frame.now }
    requires behind { behind.now ≡ link_behind frame.now }
    ensures { result ≡ length (link_text frame.now) }
{
    (before.len() + value.len() + behind.len()) as u32
}

/// The sum of four pieces, one behind the other.
fn sum_of(len: &[u8], before: &[u8], value: &[u8], behind: &[u8]) -> u32
    ensures { result ≡ crc.checksum (((len.now ++ before.now) ++ value.now) ++ behind.now) }
{
    let sum = extended(checksum(len), before);
    extended(extended(sum, value), behind)
}

/// Four pieces, one behind the other, or none.
fn append(
    out: &mut Vec<u8>,
    len: &[u8],
    before: &[u8],
    value: &[u8],
    behind: &[u8],
) -> Result<(), AllocError>
    ensures written { OnOk result (out.new.items ≡ out.old.items ++ ((len.now ++ before.now) ++ (value.now ++ behind.now))) }
    ensures want { OnErr result (out.new.items ≡ out.old.items) }
{
    let at = out.len();
    append_two(out, len, before)?;
    if append_two(out, value, behind).is_err() {
        out.truncate(at);
        return Err(AllocError);
    }
    Ok(())
}

/// Two pieces, one behind the other, or none.
fn append_two(out: &mut Vec<u8>, first: &[u8], second: &[u8]) -> Result<(), AllocError>
    ensures written { OnOk result (out.new.items ≡ out.old.items ++ (first.now ++ second.now)) }
    ensures want { OnErr result (out.new.items ≡ out.old.items) }
{
    let at = out.len();
    out.extend_from_slice(first)?;
    if out.extend_from_slice(second).is_err() {
        out.truncate(at);
        return Err(AllocError);
    }
    Ok(())
}
