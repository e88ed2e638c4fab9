ghost use Rattle.std.specs.Prelude.{◌≡◌, ◌↔◌, ◌<◌, ◌+◌, ◌++◌, [], length, true, false, IfOk, IsTrue};
ghost use Rattle.wire_codec.specs.Fits.{most};
ghost use Rattle.link_frames.specs.Links.{IsBroken};

use crate::cut::{LinkCut, first_cut};
use crate::frame::Frame;
use crate::joining::whole_frame;
use group_types::Shape;
use std::alloc::{AllocError, Global};
use std::marker::Model;
use wire_codec::fields::ReadFault;

/// Why no frame was given: the one that is due is no spelling of one of the group's frames with its sum, or there was no memory.
#[derive(Clone, Copy, Debug, PartialEq, Eq)]
pub enum LinkFault {
    BadFrame,
    Want,
}

impl From<AllocError> for LinkFault {
    ghost use Rattle.std.specs.Prelude.{◌≡◌};
    ghost use Rattle.link_frames.specs.declared.reader.LinkFault.TheVariants.{Want};

    ghost from_gives = { λ _ fault. fault ≡ Want };

    fn from(_: AllocError) -> LinkFault {
        LinkFault::Want
    }
}

/// What a reader finds: less than a frame, or a frame that ends behind `taken` bytes of the piece.
#[derive(Debug, Drop)]
pub enum Next {
    Partial,
    Whole { frame: Frame, taken: usize },
}

/// Reads the frames of a link, one a call, from pieces of any size. It keeps the bytes of a frame that isn't whole, and no
/// others.
#[derive(Drop)]
pub struct LinkReader {
    alloc: Global,
    shape: Shape,
    bad: bool,
    front: Vec<u8>,
}

impl Model for LinkReader {
    ghost use Rattle.link_frames.specs.Links.{IsPartialFrame};
    ghost use Rattle.link_frames.specs.Cuts.{Waiting};

    ghost Value = { Waiting };

    ghost view = { λ r. record { shape = r.shape; bad = r.bad; front = r.front.items } };

    ghost invariant = { λ r. IsPartialFrame r.front.items };
}

impl LinkReader {
    ghost use Rattle.std.specs.Prelude.{Ok, Err};
    ghost use Rattle.link_frames.specs.Found.{IsNext};
    ghost use Rattle.link_frames.specs.declared.reader.LinkFault.TheVariants.{BadFrame, Want};

    /// A reader of a link of a group of this shape, to which no byte was fed.
    pub fn new(alloc: Global, shape: Shape) -> LinkReader
        ensures { result ≡ record { shape = shape; bad = false; front = [] } }
    {
        LinkReader {
            alloc,
            shape,
            bad: false,
            front: Vec::new(alloc),
        }
    }

    /// The first frame of what is kept and a piece behind it; the piece's bytes behind the frame are fed next. Less than a frame
    /// is kept. A frame that is no spelling ends the link: then, and at each later call, that is the answer. After want of
    /// memory the reader is as it was, and the piece is fed again.
    pub fn next(&mut self, piece: &[u8]) -> Result<Next, LinkFault>
        ensures found { IfOk result (λ next. IsNext self.old self.new piece.now next) }
        ensures bad { result ≡ Err BadFrame → (self.new.bad ≡ true) × (self.old.bad ≡ false → IsBroken self.old.shape (self.old.front ++ piece.now)) }
        ensures again { self.old.bad ≡ true → (result ≡ Err BadFrame) × (self.new ≡ self.old) }
        ensures want { result ≡ Err Want → self.new ≡ self.old }
    {
        if self.bad {
            return Err(LinkFault::BadFrame);
        }
        match first_cut(&self.front, piece) {
            LinkCut::Partial => {
                self.front.extend_from_slice(piece)?;
                Ok(Next::Partial)
            }
            LinkCut::Bad => {
                self.bad = true;
                Err(LinkFault::BadFrame)
            }
            LinkCut::Whole { taken } => {
                match whole_frame(self.alloc, self.shape, &mut self.front, piece, taken) {
                    Ok(frame) => Ok(Next::Whole { frame, taken }),
                    Err(ReadFault::NoSpelling) => {
                        self.bad = true;
                        Err(LinkFault::BadFrame)
                    }
                    Err(ReadFault::Want) => Err(LinkFault::Want),
                }
            }
        }
    }

    /// How many bytes it keeps: those of a frame that isn't whole.
    pub fn held(&self) -> usize
        ensures value { result ≡ length self.now.front }
        ensures few { result < 8 + most }
    {
        self.front.len()
    }

    /// Whether the link was ended by a frame that is no spelling.
    pub fn has_ended(&self) -> bool
        ensures { result ≡ self.now.bad }
    {
        self.bad
    }
}
