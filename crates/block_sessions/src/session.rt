ghost use Rattle.std.specs.Prelude.{◌≡◌, ◌<◌, true, Contains, IfOk, Some, None, length};
ghost use Rattle.group_types.specs.Dimensions.{Dimensions};
ghost use Rattle.group_types.specs.Lists.{put};
ghost use Rattle.group_run.specs.Leaders.{is_complete};
ghost use Rattle.block_sessions.specs.Opened.{AreLost, IsDecoded, IsSessionOf, blank_session, gathering_of, known_of};

use crate::arrivals::Arrivals;
use cauchy_code::decode;
use group_types::{ByteList, PieceList, Shape};
use std::alloc::{AllocError, Global};

/// An open session: what came in of the known partitions' blocks and of the rows, and where the
/// blocks of the lost partitions are decoded.
#[derive(Debug, Drop)]
pub(crate) struct OpenSession {
    pub(crate) number: u64,
    pub(crate) block: u32,
    pub(crate) lost: Vec<u32>,
    pub(crate) known: Arrivals,
    pub(crate) coded: Arrivals,
    pub(crate) out: PieceList,
}

impl OpenSession {
    /// A session with nothing in. It takes the memory of all that will come in.
    pub(crate) fn new(
        alloc: Global,
        shape: Shape,
        number: u64,
        block: u32,
        lost: Vec<u32>,
        rows: &[u32],
    ) -> Result<OpenSession, AllocError>
        requires block { block < shape.blocks }
        requires lost { AreLost shape lost.items rows.now }
        ensures gathering { IfOk result (λ g. gathering_of g ≡ blank_session shape number block lost.items rows.now) }
        ensures sound { IfOk result (IsSessionOf shape) }
    {
        let known = known_of(alloc, shape, &lost)?;
        Ok(OpenSession {
            number,
            block,
            known: Arrivals::new(alloc, shape.k(), &known, shape.block())?,
            coded: Arrivals::new(alloc, shape.m(), rows, shape.block())?,
            out: PieceList::new(alloc, &lost, shape.block())?,
            lost,
        })
    }

    /// A block of data process `d` comes in. It takes no memory.
    pub(crate) fn block(&mut self, d: u32, bytes: &ByteList)
        requires awaited { Contains self.old.known.numbers d }
        requires whole { length bytes.now ≡ self.old.known.block }
        ensures gathering { gathering_of self.new
            ≡ record (gathering_of self.old) { blocks_in = put None self.old.known.parts d (Some bytes.now) } }
        ensures sound { (s : Dimensions) → IsSessionOf s self.old → IsSessionOf s self.new }
    {
        self.known.put(d, bytes.bytes());
    }

    /// A block of row `i`'s code comes in. It takes no memory.
    pub(crate) fn row(&mut self, i: u32, bytes: &[u8])
        requires awaited { Contains self.old.coded.numbers i }
        requires whole { length bytes.now ≡ self.old.coded.block }
        ensures gathering { gathering_of self.new
            ≡ record (gathering_of self.old) { rows_in = put None self.old.coded.parts i (Some bytes.now) } }
        ensures sound { (s : Dimensions) → IsSessionOf s self.old → IsSessionOf s self.new }
    {
        self.coded.put(i, bytes);
    }

    /// Whether all is in.
    pub(crate) fn is_complete(&self, shape: Shape) -> bool
        requires { IsSessionOf shape self.now }
        ensures { result ≡ is_complete shape (gathering_of self.now) }
    {
        self.known.is_complete() && self.coded.is_complete()
    }

    /// Decodes the blocks of the lost partitions. It takes no memory.
    pub(crate) fn decode(&mut self, shape: Shape)
        requires sound { IsSessionOf shape self.old }
        requires complete { is_complete shape (gathering_of self.old) ≡ true }
        ensures same { self.new ≡ record self.old { out = self.new.out } }
        ensures decoded { IsDecoded shape (gathering_of self.old) self.new.out }
    {
        decode(
            shape,
            &self.lost,
            self.coded.pieces(),
            self.known.pieces(),
            &mut self.out,
        );
    }
}

// The partitions that aren't lost.
fn known_of(alloc: Global, shape: Shape, lost: &[u32]) -> Result<Vec<u32>, AllocError>
    ensures { IfOk result (λ known. known.items ≡ known_of shape.k lost.now) }
{
    (0..shape.k()).filter(|d| !lost.contains(d)).collect(alloc)
}
