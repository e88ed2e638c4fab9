//! Laws about the frames of links, with their sums.
ghost use Rattle.std.specs.Prelude.{◌≡◌, ℕ, ◌++◌, List};
ghost use Rattle.std.specs.List.{AllByRecursion};
ghost use Rattle.group_types.specs.Dimensions.{Dimensions};
ghost use Rattle.link_frames.specs.declared.frame.Frame.{Frame};
ghost use Rattle.link_frames.specs.Limits.{HasLink};
ghost use Rattle.link_frames.specs.Links.{HasNoFrame, IsBroken, IsPartialFrame, IsLinkFrame, ReadsLink, link_stream};

/// No frame is the front of another, and no bytes are two frames.
pub fn no_link_frame_begins_another()
    ensures { (s : Dimensions) (bytes other more rest : List ℕ) (f g : Frame) → IsLinkFrame s bytes f → IsLinkFrame s other g
        → bytes ++ more ≡ other ++ rest
        → (bytes ≡ other) × (f ≡ g) × (more ≡ rest) }
{}

/// A stream is read as one list of frames with one rest, and no other: bytes at whose front no frame stands, as are less than a
/// frame and a frame that is no spelling.
pub fn link_stream_reads_once()
    ensures once { (s : Dimensions) (input rest left : List ℕ) (frames others : List Frame) → ReadsLink s input frames rest
        → HasNoFrame s rest → ReadsLink s input others left → HasNoFrame s left
        → (frames ≡ others) × (rest ≡ left) }
    ensures partial { (s : Dimensions) (rest : List ℕ) → IsPartialFrame rest → HasNoFrame s rest }
    ensures broken { (s : Dimensions) (rest : List ℕ) → IsBroken s rest → HasNoFrame s rest }
{}

/// Of frames that are sent as a stream, which is cut at any byte, a front comes out, and no frame is bad.
pub fn cut_link_stream_gives_front()
    ensures { (s : Dimensions) (sent given : List Frame) (input more rest : List ℕ) → AllByRecursion (HasLink s) sent
        → link_stream sent ≡ input ++ more → ReadsLink s input given rest
        → (later : List Frame) × (sent ≡ given ++ later) × (link_stream later ≡ rest ++ more) × (¬ (IsBroken s rest)) }
{}
