// Four sources in two sums. A source's bytes are read and cut into halves once for both sums, and a
// sum is written once for four sources.
ghost use Rattle.std.specs.Prelude.{◌≡◌, length};
ghost use Rattle.field_byte.specs.Vectors.{add_bytes};
ghost use Rattle.lane_kernel.specs.Sums.{kept, sum_of_four};

use crate::add_both_by;
use crate::lanes::sums_of_four;
use field_byte::Split;
use std::simd::prelude::*;

/// Adds to each of two destinations the products of four sources with its coefficients.
#[inline(never)]
pub fn mul_add_four_into(
    in_first: &[Split; 4],
    in_second: &[Split; 4],
    a: &[u8],
    b: &[u8],
    c: &[u8],
    d: &[u8],
    first: &mut [u8],
    second: &mut [u8],
)
    requires a { length a.now ≡ length first.old }
    requires b { length b.now ≡ length first.old }
    requires c { length c.now ≡ length first.old }
    requires d { length d.now ≡ length first.old }
    requires second { length second.old ≡ length first.old }
    ensures first { first.new ≡ add_bytes first.old (sum_of_four in_first.now a.now b.now c.now d.now) }
    ensures second { second.new ≡ add_bytes second.old (sum_of_four in_second.now a.now b.now c.now d.now) }
{
    let from = Sources { a, b, c, d };
    sum_into(true, in_first, in_second, &from, first, second);
}

/// Writes into each of two destinations the sum of the products of four sources with its
/// coefficients.
#[inline(never)]
pub fn mul_four_into(
    in_first: &[Split; 4],
    in_second: &[Split; 4],
    a: &[u8],
    b: &[u8],
    c: &[u8],
    d: &[u8],
    first: &mut [u8],
    second: &mut [u8],
)
    requires a { length a.now ≡ length first.old }
    requires b { length b.now ≡ length first.old }
    requires c { length c.now ≡ length first.old }
    requires d { length d.now ≡ length first.old }
    requires second { length second.old ≡ length first.old }
    ensures first { first.new ≡ sum_of_four in_first.now a.now b.now c.now d.now }
    ensures second { second.new ≡ sum_of_four in_second.now a.now b.now c.now d.now }
{
    let from = Sources { a, b, c, d };
    sum_into(false, in_first, in_second, &from, first, second);
}

// Four sources of one length.
#[derive(Drop)]
struct Sources<'a> {
    a: &'a [u8],
    b: &'a [u8],
    c: &'a [u8],
    d: &'a [u8],
}

// One loop for both: the sums are added to what is there, or written over it.
#[inline(always)]
fn sum_into(
    keep: bool,
    in_first: &[Split; 4],
    in_second: &[Split; 4],
    from: &Sources,
    first: &mut [u8],
    second: &mut [u8],
)
    requires a { length from.now.a.now ≡ length first.old }
    requires b { length from.now.b.now ≡ length first.old }
    requires c { length from.now.c.now ≡ length first.old }
    requires d { length from.now.d.now ≡ length first.old }
    requires second { length second.old ≡ length first.old }
    ensures first { first.new ≡ add_bytes (kept keep first.old) (sum_of_four in_first.now from.now.a.now from.now.b.now from.now.c.now from.now.d.now) }
    ensures second { second.new ≡ add_bytes (kept keep second.old) (sum_of_four in_second.now from.now.a.now from.now.b.now from.now.c.now from.now.d.now) }
{
    let (a, b, c, d) = (from.a, from.b, from.c, from.d);
    let len = first.len();
    let mut at = 0;
    'turns: while at + 32 <= len {
        let from_a = u8x32::from_slice(&a[at..]);
        let from_b = u8x32::from_slice(&b[at..]);
        let from_c = u8x32::from_slice(&c[at..]);
        let from_d = u8x32::from_slice(&d[at..]);
        let (sum, other) = sums_of_four(in_first, in_second, from_a, from_b, from_c, from_d);
        let into_first = keep_or_zeros(keep, u8x32::from_slice(&first[at..])) ^ sum;
        let into_second = keep_or_zeros(keep, u8x32::from_slice(&second[at..])) ^ other;
        into_first.copy_to_slice(&mut first[at..]);
        into_second.copy_to_slice(&mut second[at..]);
        at += 32;
    }
    let end = len - len % 32;
    let rest = Sources {
        a: &a[end..],
        b: &b[end..],
        c: &c[end..],
        d: &d[end..],
    };
    sum_four(keep, in_first, &rest, &mut first[end..]);
    sum_four(keep, in_second, &rest, &mut second[end..]);
}

#[inline(always)]
fn keep_or_zeros(keep: bool, bytes: u8x32) -> u8x32
    ensures { result ≡ kept keep bytes }
{
    if keep { bytes } else { u8x32::splat(0) }
}

fn sum_four(keep: bool, by: &[Split; 4], from: &Sources, dst: &mut [u8])
    requires a { length from.now.a.now ≡ length dst.old }
    requires b { length from.now.b.now ≡ length dst.old }
    requires c { length from.now.c.now ≡ length dst.old }
    requires d { length from.now.d.now ≡ length dst.old }
    ensures { dst.new ≡ add_bytes (kept keep dst.old) (sum_of_four by.now from.now.a.now from.now.b.now from.now.c.now from.now.d.now) }
{
    keep_or_clear(keep, dst);
    add_both_by(&by[0], &by[1], from.a, from.b, dst);
    add_both_by(&by[2], &by[3], from.c, from.d, dst);
}

fn keep_or_clear(keep: bool, bytes: &mut [u8])
    ensures { bytes.new ≡ kept keep bytes.old }
{
    if !keep {
        bytes.fill(0);
    }
}
