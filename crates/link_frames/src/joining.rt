ghost use Rattle.std.specs.Prelude.{Err, ◌≡◌, ◌≤◌, ◌+◌, ◌++◌, [], length, take, IfOk, OnErr, OnOk};
ghost use Rattle.wire_codec.specs.Reading.{Gives};
ghost use Rattle.wire_codec.specs.declared.fault.ReadFault.TheVariants.{NoSpelling};
ghost use Rattle.link_frames.specs.Cuts.{IsWholeCut};
ghost use Rattle.link_frames.specs.Links.{IsBroken, IsLinkFrame, IsPartialFrame, frame_of_bytes};

use crate::frame::Frame;
use crate::take_frame::read_frame;
use crc32c::checksum;
use group_types::Shape;
use std::alloc::Global;
use wire_codec::fields::ReadFault;

/// The frame of what is kept and the first bytes of a piece. What is kept gives its memory back where it gave a frame, and else
/// is as it was.
pub(crate) fn whole_frame(
    alloc: Global,
    shape: Shape,
    front: &mut Vec<u8>,
    piece: &[u8],
    taken: usize,
) -> Result<Frame, ReadFault>
    requires partial { IsPartialFrame front.old.items }
    requires whole { IsWholeCut front.old.items piece.now taken }
    ensures found { IfOk result (λ f. IsLinkFrame shape (front.old.items ++ take taken piece.now) f) }
    ensures bad { result ≡ Err NoSpelling → IsBroken shape (front.old.items ++ piece.now) }
    ensures given { OnOk result (front.new.items ≡ []) }
    ensures kept { OnErr result (front.new.items ≡ front.old.items) }
{
    joined_frame(alloc, shape, front, piece.split_at(taken).0)
}

/// The frame of two pieces. The second is copied behind the first, if that isn't empty, and else read where it stands.
fn joined_frame(
    alloc: Global,
    shape: Shape,
    front: &mut Vec<u8>,
    piece: &[u8],
) -> Result<Frame, ReadFault>
    requires { 8 ≤ length front.old.items + length piece.now }
    ensures read { Gives (λ f. f) result (frame_of_bytes shape (front.old.items ++ piece.now)) }
    ensures given { OnOk result (front.new.items ≡ []) }
    ensures kept { OnErr result (front.new.items ≡ front.old.items) }
{
    if front.is_empty() {
        return summed_frame(alloc, shape, piece);
    }
    let at = front.len();
    front.extend_from_slice(piece)?;
    match summed_frame(alloc, shape, front) {
        Ok(frame) => {
            *front = Vec::new(alloc);
            Ok(frame)
        }
        Err(fault) => {
            front.truncate(at);
            Err(fault)
        }
    }
}

/// The frame of bytes, if their sum is right.
#[tactic(auto, unfolding(crate::specs::Links::frame_of_bytes))]
fn summed_frame(alloc: Global, shape: Shape, bytes: &[u8]) -> Result<Frame, ReadFault>
    requires { 8 ≤ length bytes.now }
    ensures { Gives (λ f. f) result (frame_of_bytes shape bytes.now) }
{
    let (body, sum) = bytes.split_at(bytes.len() - 4);
    let told = u32::from_be_bytes([sum[0], sum[1], sum[2], sum[3]]);
    if told != checksum(body) {
        return Err(ReadFault::NoSpelling);
    }
    read_frame(alloc, shape, body.split_at(4).1)
}
