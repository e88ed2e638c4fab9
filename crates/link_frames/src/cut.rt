ghost use Rattle.std.specs.Prelude.{◌≡◌, ◌++◌};
ghost use Rattle.link_frames.specs.Cuts.{IsLinkCut};
ghost use Rattle.link_frames.specs.Links.{IsPartialFrame};

use wire_codec::fields::{MOST, announced_len};

/// What stands at the front of bytes: less than a frame, a length out of range, or all bytes of a frame, of which the piece has
/// the last `taken`.
pub(crate) enum LinkCut {
    Partial,
    Bad,
    Whole { taken: usize },
}

/// The front of what is kept, which is less than a frame, and of a piece behind it.
pub(crate) fn first_cut(front: &[u8], piece: &[u8]) -> LinkCut
    ensures { IsPartialFrame front.now → IsLinkCut front.now piece.now result }
{
    let Some(len) = announced_len(front, piece) else {
        return LinkCut::Partial;
    };
    if len < 1 || MOST < len {
        return LinkCut::Bad;
    }
    let whole = 8 + len as usize;
    if front.len() + piece.len() < whole {
        return LinkCut::Partial;
    }
    LinkCut::Whole {
        taken: whole.saturating_sub(front.len()),
    }
}
