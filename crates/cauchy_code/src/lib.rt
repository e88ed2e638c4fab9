//! The code of a coding group: each parity process keeps a sum of the partitions' bytes, with
//! coefficients that are a Cauchy matrix over the field of `field_byte`. The contracts say which
//! sum, and that lost columns are recovered from any rows as the only ones that agree with them;
//! where the bytes stand is left to the crates above.
#![tactic(auto)]

mod column;
mod decoding;
mod pass;
mod square;
mod two_columns;
mod weights;

ghost use Rattle.std.specs.Prelude.{◌≡◌, ◌+◌, ◌<◌, ◌≤◌, bit_xor, length};
ghost use Rattle.field_byte.specs.Field.{product};
ghost use Rattle.field_byte.specs.Vectors.{add_bytes, scale};
ghost use Rattle.erasure_code.specs.Code.{coefficient};

pub use decoding::decode;
use field_byte::inv;
use lane_kernel::mul_add_into;

/// The coefficient of parity process `i` of `m` for partition `d`.
pub fn coefficient(m: u32, i: u32, d: u32) -> u8
    requires m { m ≤ 4 }
    requires i { i < m }
    requires d { d ≤ 15 }
    ensures value { result ≡ coefficient m i d }
    ensures inverts { product (bit_xor i (m + d)) result ≡ 1 }
{
    inv((i ^ (m + d)) as u8)
}

/// Adds what a difference in partition `d` makes in the bytes of parity process `i`, at the same
/// addresses.
pub fn add_delta(m: u32, i: u32, d: u32, delta: &[u8], into: &mut [u8])
    requires m { m ≤ 4 }
    requires i { i < m }
    requires d { d ≤ 15 }
    requires long { length delta.now ≡ length into.old }
    ensures { into.new ≡ add_bytes into.old (scale (coefficient m i d) delta.now) }
{
    mul_add_into(coefficient(m, i, d), delta, into);
}
