// Vectors of 16, 32 and 64 bytes. A byte shuffle looks all products of four bits up at once, in a
// table of sixteen.
ghost use Rattle.std.specs.Prelude.{◌≡◌, length};
ghost use Rattle.field_byte.specs.Vectors.{add_bytes, scale};
ghost use Rattle.lane_kernel.specs.Sums.{sum_of_four};

use field_byte::Split;
use std::simd::prelude::*;

const TWICE: [usize; 32] = [
    0, 1, 2, 3, 4, 5, 6, 7, 8, 9, 10, 11, 12, 13, 14, 15, 0, 1, 2, 3, 4, 5, 6, 7, 8, 9, 10, 11, 12,
    13, 14, 15,
];

const FOUR_TIMES: [usize; 64] = [
    0, 1, 2, 3, 4, 5, 6, 7, 8, 9, 10, 11, 12, 13, 14, 15, 0, 1, 2, 3, 4, 5, 6, 7, 8, 9, 10, 11, 12,
    13, 14, 15, 0, 1, 2, 3, 4, 5, 6, 7, 8, 9, 10, 11, 12, 13, 14, 15, 0, 1, 2, 3, 4, 5, 6, 7, 8, 9,
    10, 11, 12, 13, 14, 15,
];

#[inline(always)]
pub(crate) fn add_product_16(split: &Split, from: u8x16, to: u8x16) -> u8x16
    ensures { result ≡ add_bytes to (scale split.now from) }
{
    let low = split.low();
    let high = split.high();
    let lows = low.swizzle_dyn_within::<16>(from & u8x16::splat(15));
    let highs = high.swizzle_dyn_within::<16>(from >> u8x16::splat(4));
    to ^ (lows ^ highs)
}

#[inline(always)]
pub(crate) fn product_32(split: &Split, from: u8x32) -> u8x32
    ensures { result ≡ scale split.now from }
{
    let low = split.low().swizzle::<32>(TWICE);
    let high = split.high().swizzle::<32>(TWICE);
    let lows = low.swizzle_dyn_within::<16>(from & u8x32::splat(15));
    let highs = high.swizzle_dyn_within::<16>(from >> u8x32::splat(4));
    lows ^ highs
}

#[inline(always)]
pub(crate) fn add_product_32(split: &Split, from: u8x32, to: u8x32) -> u8x32
    ensures { result ≡ add_bytes to (scale split.now from) }
{
    to ^ product_32(split, from)
}

// The sums of four sources, each of which is cut into halves once for both.
#[inline(always)]
pub(crate) fn sums_of_four(
    in_first: &[Split; 4],
    in_second: &[Split; 4],
    a: u8x32,
    b: u8x32,
    c: u8x32,
    d: u8x32,
) -> (u8x32, u8x32)
    ensures first { result.0 ≡ sum_of_four in_first.now a b c d }
    ensures second { result.1 ≡ sum_of_four in_second.now a b c d }
{
    let (first, second) = (product_32(&in_first[0], a), product_32(&in_second[0], a));
    let first_b = add_product_32(&in_first[1], b, first);
    let second_b = add_product_32(&in_second[1], b, second);
    let first_c = add_product_32(&in_first[2], c, first_b);
    let second_c = add_product_32(&in_second[2], c, second_b);
    let first_d = add_product_32(&in_first[3], d, first_c);
    let second_d = add_product_32(&in_second[3], d, second_c);
    (first_d, second_d)
}

#[inline(always)]
pub(crate) fn add_product_64(split: &Split, from: u8x64, to: u8x64) -> u8x64
    ensures { result ≡ add_bytes to (scale split.now from) }
{
    let low = split.low().swizzle::<64>(FOUR_TIMES);
    let high = split.high().swizzle::<64>(FOUR_TIMES);
    let lows = low.swizzle_dyn_within::<16>(from & u8x64::splat(15));
    let highs = high.swizzle_dyn_within::<16>(from >> u8x64::splat(4));
    to ^ (lows ^ highs)
}
