ghost use Rattle.std.specs.Prelude.{◌≡◌, ◌<◌, true, false, All, Contains, IfOk, Some, None, is_some, length, replicate, slice_index_or};
ghost use Rattle.std.specs.List.{list_all};
ghost use Rattle.std.specs.List.Sorted.{IsStrictlyIncreasing};
ghost use Rattle.group_types.specs.Lists.{at, put};
ghost use Rattle.group_types.specs.Pieces.{numbers_of};
ghost use Rattle.cauchy_code.specs.Columns.{as_columns};
ghost use Rattle.group_run.specs.Leaders.{columns_from};

use group_types::{Piece, PieceList};
use std::alloc::{AllocError, Global};
use std::marker::Model;

mod coming;

/// Pieces that are awaited, and which of them came.
#[derive(Debug, Drop)]
pub(crate) struct Arrivals {
    pieces: PieceList,
    came: Vec<bool>,
    block: u32,
}

impl Model for Arrivals {
    ghost use Rattle.block_sessions.specs.Awaited.{AreAwaited, Awaited, awaited_in};

    ghost Value = { Awaited };

    ghost view = { λ a. awaited_in a.pieces a.came.items a.block };

    ghost invariant = { λ a. AreAwaited a.pieces a.came.items a.block };
}

impl Arrivals {
    /// The pieces of some of the numbers below `count`, of which none came.
    pub(crate) fn new(
        alloc: Global,
        count: u32,
        numbers: &[u32],
        block: u32,
    ) -> Result<Arrivals, AllocError>
        requires rising { IsStrictlyIncreasing numbers.now }
        requires below { All (λ n. n < count) numbers.now }
        ensures { IfOk result (λ a. a ≡ record { numbers = numbers.now; parts = replicate count None; block = block }) }
    {
        Ok(Arrivals {
            pieces: PieceList::new(alloc, numbers, block)?,
            came: vec![in alloc; false; count as usize]?,
            block,
        })
    }

    /// A piece comes in. It takes no memory.
    pub(crate) fn put(&mut self, number: u32, bytes: &[u8])
        requires awaited { Contains self.old.numbers number }
        requires whole { length bytes.now ≡ self.old.block }
        ensures came { self.new ≡ record self.old { parts = put None self.old.parts number (Some bytes.now) } }
        ensures long { length self.new.parts ≡ length self.old.parts }
    {
        self.pieces.piece_mut(number).copy_from_slice(bytes);
        self.came[number as usize] = true;
    }

    /// Whether every piece came.
    pub(crate) fn is_complete(&self) -> bool
        ensures { result ≡ list_all (λ n. is_some (at None self.now.parts n)) self.now.numbers }
    {
        all_came(self.pieces.pieces(), &self.came)
    }

    /// The pieces, in the order of their numbers.
    pub(crate) fn pieces(&self) -> &PieceList
        requires { list_all (λ n. is_some (at None self.now.parts n)) self.now.numbers ≡ true }
        ensures columns { as_columns result.now ≡ columns_from 0 self.now.parts }
        ensures numbers { numbers_of result.now ≡ self.now.numbers }
        ensures rising { IsStrictlyIncreasing self.now.numbers }
        ensures long { All (λ p. length p.bytes ≡ self.now.block) result.now }
    {
        &self.pieces
    }
}

fn all_came(pieces: &[Piece], came: &[bool]) -> bool
    requires { All (λ n. n < length came.now) (numbers_of pieces.now) }
    ensures { result ≡ list_all (λ p. slice_index_or came.now p.number false) pieces.now }
{
    'pieces: for piece in pieces {
        if !came[piece.number as usize] {
            return false;
        }
    }
    true
}
