use group_types::Shape;
use link_frames::{Frame, LinkFault, LinkReader, Next, encode_into, has_link};
use std::alloc::{AllocError, Global};

/// A reader of a link, what was fed to it, and what it has given: each frame as a text, and all of them written again.
#[derive(Drop)]
pub(crate) struct Reading {
    alloc: Global,
    shape: Shape,
    reader: LinkReader,
    fed: Vec<u8>,
    told: String,
    written: Vec<u8>,
}

impl Reading {
    pub(crate) fn new(alloc: Global, shape: Shape) -> Reading {
        Reading {
            alloc,
            shape,
            reader: LinkReader::new(alloc, shape),
            fed: Vec::new(alloc),
            told: String::new(alloc),
            written: Vec::new(alloc),
        }
    }

    /// Takes all frames that end within a piece.
    pub(crate) fn feed(&mut self, piece: &[u8]) -> Result<(), AllocError> {
        self.fed.extend_from_slice(piece)?;
        let mut rest = piece;
        'frames: for _ in 0..=piece.len() {
            match self.reader.next(rest) {
                Ok(Next::Whole { frame, taken }) => {
                    self.keep(&frame)?;
                    rest = rest.split_at(taken).1;
                }
                Ok(Next::Partial) | Err(LinkFault::BadFrame) => break 'frames,
                Err(LinkFault::Want) => return Err(AllocError),
            }
        }
        Ok(())
    }

    fn keep(&mut self, frame: &Frame) -> Result<(), AllocError> {
        let text = format!(in self.alloc; "{frame:?}; ")?;
        self.told.push_str(&text)?;
        if has_link(self.shape, frame) {
            encode_into(self.alloc, &mut self.written, frame)?;
        }
        Ok(())
    }

    /// The frames, and what is left behind them.
    pub(crate) fn end(&self) -> Result<String, AllocError> {
        let (told, held) = (&self.told, self.reader.held());
        if !self.fed.starts_with(&self.written) {
            return format!(in self.alloc; "{told}written otherwise");
        }
        if self.reader.has_ended() {
            return format!(in self.alloc; "{told}bad");
        }
        format!(in self.alloc; "{told}{held} left")
    }
}
