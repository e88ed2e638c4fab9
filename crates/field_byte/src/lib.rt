//! The field of 256 elements whose sum is exclusive or and whose product is that of polynomials
//! modulo 0x11D. Each call's contract says the sum or the product as `specs/Field.antt` defines it,
//! by doubling and adding; [`laws`] states the algebra, for those who prove something above it.
//! Whole slices at a time are left to `lane_kernel`.
#![tactic(auto)]

pub mod laws;
mod split;
mod tables;

ghost use Rattle.std.specs.Prelude.{◌≡◌, ◌≢◌, bit_xor};
ghost use Rattle.field_byte.specs.Field.{inverse, product};

pub use split::Split;
use tables::{exp_of, log_of};

/// The sum of two elements, which is their difference too.
#[inline(always)]
pub fn add(a: u8, b: u8) -> u8
    ensures { result ≡ bit_xor a b }
{
    a ^ b
}

/// The product of two elements.
pub fn mul(a: u8, b: u8) -> u8
    ensures { result ≡ product a b }
{
    if a == 0 || b == 0 {
        return 0;
    }
    let exponent = (log_of(a) as u16 + log_of(b) as u16) % 255;
    exp_of(exponent as u8)
}

/// The element whose product with `a` is 1.
pub fn inv(a: u8) -> u8
    requires { a ≢ 0 }
    ensures inverts { product a result ≡ 1 }
    ensures inverse { result ≡ inverse a }
{
    exp_of(255 - log_of(a))
}
