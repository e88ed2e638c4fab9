use crate::links::Links;
use crate::sets::{first, without};
use link_frames::Frame;

/// A frame that a member's call made, and to which processes it is still to go.
#[derive(Drop)]
struct Held {
    frame: Frame,
    to: u32,
}

/// The frame that there was no memory for, if there is one. Nothing goes out before it.
#[derive(Drop)]
pub(crate) struct Outgoing {
    held: Option<Held>,
}

impl Outgoing {
    pub(crate) fn new() -> Outgoing {
        Outgoing { held: None }
    }

    /// Whether a frame can be made.
    pub(crate) fn is_clear(&self) -> bool {
        self.held.is_none()
    }

    /// A frame goes to each of a set, or is kept for those that there is no memory for.
    pub(crate) fn post<L: Links>(&mut self, links: &mut L, to: u32, frame: Frame) {
        let to = put_to(links, to, &frame);
        if to == 0 {
            drop(frame);
        } else {
            self.held = Some(Held { frame, to });
        }
    }

    /// The frame that was kept goes out, where there is memory.
    pub(crate) fn retry<L: Links>(&mut self, links: &mut L) {
        if let Some(Held { frame, to }) = self.held.take() {
            self.post(links, to, frame);
        }
    }
}

// A frame is put on the links to a set: those are left that there was no memory for.
fn put_to<L: Links>(links: &mut L, to: u32, frame: &Frame) -> u32 {
    let (mut rest, mut left) = (to, to);
    'names: for _ in 0..u32::BITS {
        let Some(x) = first(rest) else {
            return left;
        };
        rest = without(rest, x);
        if links.put(x, frame).is_ok() {
            left = without(left, x);
        }
    }
    left
}
