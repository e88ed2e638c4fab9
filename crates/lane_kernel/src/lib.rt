//! Sums of whole slices over the field of `field_byte`: one slice, or its product with a
//! coefficient, is added into another, or two into two in one pass. The contracts say the plain sum
//! byte by byte, for every length; that vectors do it shows in the speed alone.
#![tactic(auto)]

mod fours;
mod lanes;
mod plain;

ghost use Rattle.std.specs.Prelude.{◌≡◌, length, slice_index};
ghost use Rattle.field_byte.specs.Vectors.{add_bytes, scale};
ghost use Rattle.lane_kernel.specs.Sums.{add_two};

use field_byte::Split;
pub use fours::{mul_add_four_into, mul_four_into};
use lanes::{add_product_16, add_product_32, add_product_64};
use std::simd::prelude::*;

/// Adds each byte of `src` to the byte of `dst` at its place.
pub fn xor_into(src: &[u8], dst: &mut [u8])
    requires { length src.now ≡ length dst.old }
    ensures { dst.new ≡ add_bytes dst.old src.now }
{
    'bytes: for (at, from) in src.iter().enumerate() {
        dst[at] ^= *from;
    }
}

/// Adds the product of `coef` and each byte of `src` to the byte of `dst` at its place.
pub fn mul_add_into(coef: u8, src: &[u8], dst: &mut [u8])
    requires { length src.now ≡ length dst.old }
    ensures { dst.new ≡ add_bytes dst.old (scale coef src.now) }
{
    if dst.len() < 16 {
        return plain::mul_add_into(coef, src, dst);
    }
    mul_add_by(&Split::of(coef), src, dst);
}

/// The same with a coefficient that the caller keeps prepared.
pub fn mul_add_by(coef: &Split, src: &[u8], dst: &mut [u8])
    requires { length src.now ≡ length dst.old }
    ensures { dst.new ≡ add_bytes dst.old (scale coef.now src.now) }
{
    let len = dst.len();
    if len < 16 {
        return plain::mul_add_into(coef.coef(), src, dst);
    }
    // What is left behind the last whole vector goes with the last 16 bytes, which are summed
    // before any of them changes.
    let end = len - 16;
    let last = add_product_16(
        coef,
        u8x16::from_slice(&src[end..]),
        u8x16::from_slice(&dst[end..]),
    );
    let mut at = 0;
    'turns: while at + 64 <= len {
        let sum = add_product_64(
            coef,
            u8x64::from_slice(&src[at..]),
            u8x64::from_slice(&dst[at..]),
        );
        sum.copy_to_slice(&mut dst[at..]);
        at += 64;
    }
    'vectors: while at + 16 <= len {
        let sum = add_product_16(
            coef,
            u8x16::from_slice(&src[at..]),
            u8x16::from_slice(&dst[at..]),
        );
        sum.copy_to_slice(&mut dst[at..]);
        at += 16;
    }
    last.copy_to_slice(&mut dst[end..]);
}

/// Adds to each of two destinations the products of two sources with its coefficients. A source's
/// bytes are read and cut into halves once for both.
pub fn mul_add_two_into(
    in_first: [u8; 2],
    in_second: [u8; 2],
    a: &[u8],
    b: &[u8],
    first: &mut [u8],
    second: &mut [u8],
)
    requires a { length a.now ≡ length first.old }
    requires b { length b.now ≡ length first.old }
    requires second { length second.old ≡ length first.old }
    ensures first { first.new ≡ add_two (slice_index in_first 0) (slice_index in_first 1) a.now b.now first.old }
    ensures second { second.new ≡ add_two (slice_index in_second 0) (slice_index in_second 1) a.now b.now second.old }
{
    let len = first.len();
    let (a_in_first, b_in_first) = (Split::of(in_first[0]), Split::of(in_first[1]));
    let (a_in_second, b_in_second) = (Split::of(in_second[0]), Split::of(in_second[1]));
    let mut at = 0;
    'turns: while at + 32 <= len {
        let from_a = u8x32::from_slice(&a[at..]);
        let into_first = u8x32::from_slice(&first[at..]);
        let into_second = u8x32::from_slice(&second[at..]);
        let a_first = add_product_32(&a_in_first, from_a, into_first);
        let a_second = add_product_32(&a_in_second, from_a, into_second);
        let from_b = u8x32::from_slice(&b[at..]);
        let sum = add_product_32(&b_in_first, from_b, a_first);
        let other = add_product_32(&b_in_second, from_b, a_second);
        sum.copy_to_slice(&mut first[at..]);
        other.copy_to_slice(&mut second[at..]);
        at += 32;
    }
    add_both_by(
        &a_in_first,
        &b_in_first,
        &a[at..],
        &b[at..],
        &mut first[at..],
    );
    add_both_by(
        &a_in_second,
        &b_in_second,
        &a[at..],
        &b[at..],
        &mut second[at..],
    );
}

fn add_both_by(p: &Split, q: &Split, a: &[u8], b: &[u8], dst: &mut [u8])
    requires a { length a.now ≡ length dst.old }
    requires b { length b.now ≡ length dst.old }
    ensures { dst.new ≡ add_two p.now q.now a.now b.now dst.old }
{
    mul_add_by(p, a, dst);
    mul_add_by(q, b, dst);
}
