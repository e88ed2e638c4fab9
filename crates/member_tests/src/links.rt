// The links of a member in memory: a test carries what goes there, frame by frame.
use group_types::{ProcessId, Shape};
use link_frames::{Frame, LinkReader, Next, encode_into, fits_link};
use member_gateway::Links;
use std::alloc::{AllocError, Global};
use std::collections::VecDeque;

/// Frames of one process for another, as bytes, the first in front.
pub(crate) type Wire = VecDeque<Vec<u8>>;

/// What came from each other, what goes to it, and whether that is cut.
#[derive(Drop)]
struct Link {
    reader: LinkReader,
    came: Wire,
    goes: Wire,
    is_cut: bool,
}

/// The links of a member in memory, and the moment.
#[derive(Drop)]
pub(crate) struct MemoryLinks {
    alloc: Global,
    links: Vec<Link>,
    words: VecDeque<ProcessId>,
    pub(crate) now: u64,
    /// How many frames have room.
    pub(crate) room: usize,
    /// Of so many frames one finds no memory at first, or none where it is 0.
    pub(crate) scarce: u64,
    puts: u64,
    /// What no member does to its links, and frames that can't be read.
    pub(crate) faults: u64,
}

impl MemoryLinks {
    pub(crate) fn new(alloc: Global, shape: Shape) -> Result<MemoryLinks, AllocError> {
        let mut links = Vec::new(alloc);
        for _ in 0..shape.k() + shape.m() {
            links.push(Link {
                reader: LinkReader::new(alloc, shape),
                came: VecDeque::new(alloc),
                goes: VecDeque::new(alloc),
                is_cut: false,
            })?;
        }
        Ok(MemoryLinks {
            alloc,
            links,
            words: VecDeque::new(alloc),
            now: 0,
            room: usize::MAX,
            scarce: 0,
            puts: 0,
            faults: 0,
        })
    }

    /// The first frame that goes to another is on its way.
    pub(crate) fn carry_out(&mut self, to: usize) -> Option<Vec<u8>> {
        self.links.get_mut(to)?.goes.pop_front()
    }

    /// A frame came from another: nothing is read of one that is cut.
    pub(crate) fn carry_in(&mut self, from: usize, frame: Vec<u8>) -> Result<(), AllocError> {
        match self.links.get_mut(from) {
            Some(link) if !link.is_cut => link.came.push_back(frame)?,
            _ => {}
        }
        Ok(())
    }

    /// Of what goes to another all but the first frames is lost.
    pub(crate) fn lose(&mut self, to: usize, keep: usize) {
        if let Some(link) = self.links.get_mut(to) {
            link.goes.truncate(keep);
        }
    }

    /// The operator says that a process is dead.
    pub(crate) fn say_dead(&mut self, x: ProcessId) -> Result<(), AllocError> {
        self.words.push_back(x)?;
        Ok(())
    }

    fn fault(&mut self) {
        self.faults = self.faults.saturating_add(1);
    }

    fn encode(&self, frame: &Frame) -> Result<Vec<u8>, AllocError> {
        let mut bytes = Vec::new(self.alloc);
        if !fits_link(frame) {
            return Err(AllocError);
        }
        encode_into(self.alloc, &mut bytes, frame)?;
        Ok(bytes)
    }

    fn is_scarce(&mut self) -> bool {
        self.puts = self.puts.wrapping_add(1);
        self.scarce != 0 && self.puts % self.scarce == 0
    }
}

impl Links for MemoryLinks {
    fn take(&mut self, from: u32) -> Option<Frame> {
        let link = self.links.get_mut(from as usize)?;
        if link.is_cut {
            self.fault();
            return None;
        }
        let bytes = link.came.pop_front()?;
        match link.reader.next(&bytes) {
            Ok(Next::Whole { frame, .. }) => Some(frame),
            _ => {
                self.fault();
                None
            }
        }
    }

    fn give_back(&mut self, from: u32, frame: Frame) {
        let encoded = self.encode(&frame);
        if let (Ok(bytes), Some(link)) = (encoded, self.links.get_mut(from as usize)) {
            if link.came.push_front(bytes).is_ok() {
                return;
            }
        }
        self.fault();
    }

    fn misfit(&mut self, _from: u32) {
        self.fault();
    }

    fn put(&mut self, to: u32, frame: &Frame) -> Result<(), AllocError> {
        if self.is_scarce() {
            return Err(AllocError);
        }
        let bytes = self.encode(frame)?;
        match self.links.get_mut(to as usize) {
            Some(link) if !link.is_cut => link.goes.push_back(bytes)?,
            _ => self.fault(),
        }
        Ok(())
    }

    fn has_room(&self, to: u32) -> bool {
        self.links
            .get(to as usize)
            .is_some_and(|link| link.goes.len() < self.room)
    }

    fn cut(&mut self, x: u32) {
        if let Some(link) = self.links.get_mut(x as usize) {
            link.is_cut = true;
            link.came.clear();
        }
    }

    fn next_word(&mut self) -> Option<ProcessId> {
        self.words.pop_front()
    }

    fn now(&self) -> u64 {
        self.now
    }
}
