ghost use Rattle.std.specs.Prelude.{◌≡◌, ℕ, List, false, true, OnOk, IfErr};
ghost use Rattle.group_message.specs.declared.message.Message.{Message};
ghost use Rattle.wire_codec.specs.Stream.{HasDecoded};
ghost use Rattle.wire_frames.specs.Pieces.{EndsAs};

use crate::status::FramesStatus;
use wire_codec::Decoder;

/// The end of a stream whose input ended, and of which no frame is bad.
pub(crate) fn end_stream(decoder: &Decoder) -> Result<(), FramesStatus>
    requires { decoder.now.bad ≡ false }
    ensures { (input : List ℕ) (messages : List Message) → HasDecoded decoder.now input messages
        → EndsAs input messages result }
{
    if decoder.at_start() {
        Ok(())
    } else {
        Err(FramesStatus::Cut)
    }
}

/// Tells a bad frame that stands behind the messages of the last piece.
pub(crate) fn tell_bad(decoder: &mut Decoder) -> Result<(), FramesStatus>
    ensures same { decoder.new ≡ decoder.old }
    ensures good { OnOk result (decoder.old.bad ≡ false) }
    ensures bad { IfErr result (λ status. (decoder.old.bad ≡ true)
        × (status ≡ FramesStatus.BadFrame decoder.old.begun)) }
{
    if !is_bad(decoder) {
        return Ok(());
    }
    match decoder.feed(&[]) {
        Ok(_) => unreachable!(),
        Err(fault) => Err(FramesStatus::from(fault)),
    }
}

/// Whether it has met a bad frame: then it takes a piece of any length, and else none of so many bytes.
fn is_bad(decoder: &Decoder) -> bool
    ensures { result ≡ decoder.now.bad }
{
    decoder.takes(usize::MAX)
}
