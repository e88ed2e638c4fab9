ghost use Rattle.std.specs.Prelude.{◌≡◌, ◌<◌, Contains, IfOk, length};
ghost use Rattle.std.specs.Borrow.{sem};

use crate::ByteList;
use std::alloc::{AllocError, Global};
use std::marker::Model;

/// A block of bytes, with the number of the parity process or of the partition that it is of.
#[derive(Debug, Drop)]
pub struct Piece {
    pub number: u32,
    pub bytes: ByteList,
}

/// Numbered pieces of one block each. Where a number stands twice, the calls mean its first piece.
#[derive(Debug, Drop)]
pub struct PieceList {
    pieces: Vec<Piece>,
}

impl Model for PieceList {
    ghost use Rattle.std.specs.Prelude.{List};
    ghost use Rattle.group_types.specs.declared.piece_list.Piece.{Piece};

    ghost Value = { List Piece };

    ghost view = { λ list. list.pieces.items };
}

impl PieceList {
    ghost use Rattle.group_types.specs.Pieces.{LendsPiece, bytes_of, numbers_of, piece_of, place_of, without, zero_pieces};

    /// One piece of `block` zeros for each number.
    pub fn new(alloc: Global, numbers: &[u32], block: u32) -> Result<PieceList, AllocError>
        ensures { IfOk result (λ list. list ≡ zero_pieces block numbers.now) }
    {
        let mut pieces = Vec::with_capacity(alloc, numbers.len())?;
        'numbers: for number in numbers {
            let bytes = vec![in alloc; 0u8; block as usize]?;
            pieces.push(Piece {
                number: *number,
                bytes: ByteList::from(bytes),
            })?;
        }
        Ok(PieceList { pieces })
    }

    /// The pieces, in order.
    pub fn pieces(&self) -> &[Piece]
        ensures { result.now ≡ self.now }
    {
        &self.pieces
    }

    /// The bytes of this number's piece.
    pub fn piece(&self, number: u32) -> &[u8]
        requires { Contains (numbers_of self.now) number }
        ensures { result.now ≡ bytes_of self.now number }
    {
        let place = self.place(number);
        self.pieces[place].bytes.bytes()
    }

    /// The bytes of this number's piece, to write into.
    pub fn piece_mut(&mut self, number: u32) -> &mut [u8]
        requires { Contains (numbers_of self.old) number }
        ensures* writes_back { sem 𝓛 (LendsPiece self.entry number result) }
        ensures value { result.now ≡ bytes_of self.old number }
    {
        let place = self.place(number);
        let piece = &mut self.pieces[place];
        piece.bytes.bytes_mut()
    }

    /// Removes this number's piece.
    pub fn take(&mut self, number: u32) -> ByteList
        requires { Contains (numbers_of self.old) number }
        ensures bytes { result ≡ bytes_of self.old number }
        ensures others { self.new ≡ without self.old number }
    {
        let place = self.place(number);
        self.pieces.remove(place).bytes
    }

    fn place(&self, number: u32) -> usize
        requires { Contains (numbers_of self.now) number }
        ensures place { result ≡ place_of self.now number }
        ensures within { result < length self.now }
    {
        'pieces: for (place, piece) in self.pieces.iter().enumerate() {
            if piece.number == number {
                return place;
            }
        }
        unreachable!()
    }
}
