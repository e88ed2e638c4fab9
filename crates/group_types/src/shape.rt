ghost use Rattle.std.specs.Prelude.{◌≡◌, ◌↔◌, ◌*◌, IsTrue, MatchResult};
ghost use Rattle.group_types.specs.Dimensions.{Dimensions, space_of};

use std::error::Error;
use std::fmt;
use std::marker::Model;

/// A field of a shape, as a refusal names it.
#[derive(Clone, Copy, Debug, PartialEq, Eq)]
pub enum Field {
    K,
    M,
    Blocks,
    Block,
}

/// The first field that is out of range, in the order k, m, block, blocks.
#[derive(Clone, Copy, Debug, PartialEq, Eq)]
pub struct BadShape {
    pub field: Field,
}

impl fmt::Display for BadShape {
    fn fmt<W: fmt::Write>(&self, f: &mut fmt::Formatter<W>) -> fmt::Result {
        f.write_str(match self.field {
            Field::K => "a group has 1 to 16 data processes",
            Field::M => "a group has at most 4 parity processes",
            Field::Blocks => "a space has at least one block, and at most 67108864 bytes",
            Field::Block => "a block has a power of two of bytes, from 16 to 65536",
        })
    }
}

impl Error for BadShape {}

/// The shape of a coding group: k data processes (1 to 16), m parity processes (0 to 4), and in
/// each space `blocks` blocks of `block` bytes (a power of two from 16 to 65,536), which are at
/// most 64 MiB.
#[derive(Clone, Copy, Debug, PartialEq, Eq)]
pub struct Shape {
    k: u32,
    m: u32,
    blocks: u32,
    block: u32,
}

impl Model for Shape {
    ghost use Rattle.group_types.specs.Dimensions.{Dimensions};
    ghost use Rattle.group_types.specs.Shape.{IsShape};

    ghost Value = { Dimensions };

    ghost view = { λ s. record { k = s.k; m = s.m; blocks = s.blocks; block = s.block } };

    ghost invariant = { λ s. IsShape (record { k = s.k; m = s.m; blocks = s.blocks; block = s.block }) };

    ghost inverse = { λ d. record { k = d.k; m = d.m; blocks = d.blocks; block = d.block } };
}

impl Shape {
    ghost use Rattle.group_types.specs.Shape.{IsShape, IsFirstOutOfRange};

    pub fn new(k: u32, m: u32, blocks: u32, block: u32) -> Result<Shape, BadShape>
        ensures { let asked : Dimensions = record { k = k; m = m; blocks = blocks; block = block } in
            MatchResult result (λ s. (s ≡ asked) × IsShape asked) (λ bad. IsFirstOutOfRange asked bad.field) }
    {
        if k < 1 || 16 < k {
            return Err(BadShape { field: Field::K });
        }
        if 4 < m {
            return Err(BadShape { field: Field::M });
        }
        if block < 16 || 65_536 < block || !block.is_power_of_two() {
            return Err(BadShape {
                field: Field::Block,
            });
        }
        if blocks < 1 || 67_108_864 < u64::from(blocks) * u64::from(block) {
            return Err(BadShape {
                field: Field::Blocks,
            });
        }
        Ok(Shape {
            k,
            m,
            blocks,
            block,
        })
    }

    /// The number of data processes, and of partitions.
    pub fn k(self) -> u32
        ensures value { result ≡ self.k }
        ensures in_range { IsShape self }
    {
        self.k
    }

    /// The number of parity processes.
    pub fn m(self) -> u32
        ensures value { result ≡ self.m }
        ensures in_range { IsShape self }
    {
        self.m
    }

    /// The number of blocks of a space.
    pub fn blocks(self) -> u32
        ensures value { result ≡ self.blocks }
        ensures in_range { IsShape self }
    {
        self.blocks
    }

    /// The bytes of a block.
    pub fn block(self) -> u32
        ensures value { result ≡ self.block }
        ensures in_range { IsShape self }
    {
        self.block
    }

    /// The bytes of a space.
    pub fn space(self) -> u32
        ensures value { result ≡ space_of self }
        ensures in_range { IsShape self }
    {
        self.blocks * self.block
    }
}
