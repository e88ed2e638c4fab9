//! Laws about frames.
ghost use Rattle.std.specs.Prelude.{◌≡◌, ℕ, ◌+◌, ◌<◌, ◌≤◌, ◌++◌, List, length, false};
ghost use Rattle.std.specs.List.{AllByRecursion};
ghost use Rattle.group_message.specs.declared.message.Message.{Message};
ghost use Rattle.wire_codec.specs.Fits.{HasFrame, IsFrame, most};
ghost use Rattle.wire_codec.specs.Stream.{stream_of, HasNone, HasDecoded, IsPartial, IsBad, DecoderState, ReadsFrames};

/// No frame is the front of another, and no bytes are the frames of two messages.
pub fn no_frame_begins_another()
    ensures { (frame other more rest : List ℕ) (m n : Message) → IsFrame frame m → IsFrame other n
        → frame ++ more ≡ other ++ rest
        → (frame ≡ other) × (m ≡ n) × (more ≡ rest) }
{}

/// A stream is read as one list of messages with one rest, and no other: bytes at whose front no frame stands, as are less than
/// a frame and a frame that is no spelling.
pub fn stream_reads_once()
    ensures once { (input rest left : List ℕ) (messages others : List Message) → ReadsFrames input messages rest
        → HasNone rest → ReadsFrames input others left → HasNone left
        → (messages ≡ others) × (rest ≡ left) }
    ensures partial { (rest : List ℕ) → IsPartial rest → HasNone rest }
    ensures bad { (rest : List ℕ) → IsBad rest → HasNone rest }
{}

/// Of messages that are sent as a stream, which is cut at any byte, a front comes out, and no frame is bad.
pub fn cut_stream_gives_front()
    ensures { (sent given : List Message) (input more rest : List ℕ) → AllByRecursion HasFrame sent
        → stream_of sent ≡ input ++ more → ReadsFrames input given rest
        → (later : List Message) × (sent ≡ given ++ later) × (stream_of later ≡ rest ++ more) × (¬ (IsBad rest)) }
{}

/// A decoder that has met no bad frame keeps less than the longest frame, and no more than was fed.
pub fn little_is_kept()
    ensures { (kept : DecoderState) (input : List ℕ) (messages : List Message) → HasDecoded kept input messages → kept.bad ≡ false
        → (length kept.front ≤ length input) × (length kept.front < 4 + most) }
{}
