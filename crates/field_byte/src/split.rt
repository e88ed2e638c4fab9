ghost use Rattle.std.specs.Prelude.{◌≡◌, ◌<◌};
ghost use Rattle.field_byte.specs.Field.{product};
ghost use Rattle.field_byte.specs.Halves.{products_of_nibbles};

use std::marker::Model;
use std::simd::prelude::*;

/// One coefficient, prepared to be multiplied with many bytes: its products with the low and with
/// the high four bits of a byte. Contracts see the coefficient alone.
#[derive(Debug, Drop)]
pub struct Split {
    low: u8x16,
    high: u8x16,
}

impl Model for Split {
    ghost use Rattle.std.specs.Prelude.{ℕ, slice_index};
    ghost use Rattle.field_byte.specs.Halves.{AreHalves};

    ghost Value = { ℕ };

    ghost view = { λ s. slice_index s.low 1 };

    ghost invariant = { λ s. AreHalves (slice_index s.low 1) s.low s.high };
}

// All bits at each number of four bits that has the bit, and none at the others.
const HAS_1: [u8; 16] = [
    0, 255, 0, 255, 0, 255, 0, 255, 0, 255, 0, 255, 0, 255, 0, 255,
];

const HAS_2: [u8; 16] = [
    0, 0, 255, 255, 0, 0, 255, 255, 0, 0, 255, 255, 0, 0, 255, 255,
];

const HAS_4: [u8; 16] = [
    0, 0, 0, 0, 255, 255, 255, 255, 0, 0, 0, 0, 255, 255, 255, 255,
];

const HAS_8: [u8; 16] = [
    0, 0, 0, 0, 0, 0, 0, 0, 255, 255, 255, 255, 255, 255, 255, 255,
];

// At each number of four bits the sum of those of four bytes that its bits name.
macro_rules! sums {
    ($a:expr, $b:expr, $c:expr, $d:expr) => {
        (u8x16::splat($a) & u8x16::from_array(HAS_1))
            ^ (u8x16::splat($b) & u8x16::from_array(HAS_2))
            ^ (u8x16::splat($c) & u8x16::from_array(HAS_4))
            ^ (u8x16::splat($d) & u8x16::from_array(HAS_8))
    };
}

// The product with 2.
#[inline(always)]
fn double(a: u8) -> u8
    ensures { result ≡ product a 2 }
{
    (a << 1) ^ (a >> 7) * 0x1D
}

impl Split {
    #[inline(always)]
    pub fn of(coef: u8) -> Split
        ensures { result ≡ coef }
    {
        let by_2 = double(coef);
        let by_4 = double(by_2);
        let by_8 = double(by_4);
        let by_16 = double(by_8);
        let by_32 = double(by_16);
        let by_64 = double(by_32);
        let by_128 = double(by_64);
        Split {
            low: sums!(coef, by_2, by_4, by_8),
            high: sums!(by_16, by_32, by_64, by_128),
        }
    }

    /// The products with 0 to 15.
    #[inline(always)]
    pub fn low(&self) -> u8x16
        ensures products { result ≡ products_of_nibbles self.now 1 }
        ensures byte { self.now < 256 }
    {
        self.low
    }

    /// The products with 0, 16, 32 and so on to 240.
    #[inline(always)]
    pub fn high(&self) -> u8x16
        ensures { result ≡ products_of_nibbles self.now 16 }
    {
        self.high
    }

    /// The coefficient, which is its product with 1.
    pub fn coef(&self) -> u8
        ensures { result ≡ self.now }
    {
        self.low.to_array()[1]
    }

    /// The product of the coefficient and `b`.
    pub fn mul(&self, b: u8) -> u8
        ensures { result ≡ product self.now b }
    {
        self.low.to_array()[(b & 15) as usize] ^ self.high.to_array()[(b >> 4) as usize]
    }
}
