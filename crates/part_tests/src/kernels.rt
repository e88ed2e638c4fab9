// Sums of many bytes at once, beside those of one byte after another.
use crate::fixtures::same;
use field_byte::{Split, mul};
use lane_kernel::{mul_add_four_into, mul_add_into, mul_add_two_into, mul_four_into, xor_into};

fn add_each(coef: u8, src: &[u8], dst: &mut [u8]) {
    for (from, to) in src.iter().zip(dst.iter_mut()) {
        *to ^= mul(coef, *from);
    }
}

// Powers of 3, and each of them with some bits turned.
fn sources() -> ([u8; 200], [u8; 200]) {
    let mut src = [0u8; 200];
    let mut old = [0u8; 200];
    let mut byte = 7u8;
    for (from, to) in src.iter_mut().zip(old.iter_mut()) {
        byte = mul(byte, 3);
        *from = byte;
        *to = byte ^ 0x5A;
    }
    (src, old)
}

#[test]
fn fast_and_plain_sums_agree_on_each_length(rt: HostRuntime) {
    let (src, old) = sources();
    for coef in [0, 1, 2, 0x1D, 0x8E, 0xA7, 0xFF] {
        for len in 0..=200usize {
            let mut fast = old;
            let mut slow = old;
            mul_add_into(coef, &src[..len], &mut fast[..len]);
            add_each(coef, &src[..len], &mut slow[..len]);
            same(&rt, fast, slow);
        }
    }
}

#[test]
fn sums_of_bytes(rt: HostRuntime) {
    let mut sum = [0x01, 0x02, 0x03];
    xor_into(&[0x10, 0x02, 0xFF], &mut sum);
    let mut other = sum;
    mul_add_into(0x8E, &[0x02, 0x10, 0x00], &mut other);
    same(&rt, (sum, other), ([0x11, 0x00, 0xFC], [0x10, 0x08, 0xFC]));
}

#[test]
fn two_sources_in_two_sums(rt: HostRuntime) {
    let mut first = [0u8; 40];
    let mut second = [0xFFu8; 40];
    let (a, b) = ([2; 40], [0x10; 40]);
    mul_add_two_into([0x8E, 0x8E], [1, 1], &a, &b, &mut first, &mut second);
    same(&rt, (first, second), ([0x09; 40], [0xED; 40]));
}

fn four(coef: u8) -> [Split; 4] {
    [
        Split::of(coef),
        Split::of(coef),
        Split::of(coef),
        Split::of(coef),
    ]
}

#[test]
fn four_sources_in_two_sums(rt: HostRuntime) {
    let (a, b, c, d) = ([2u8; 40], [0x10u8; 40], [2u8; 40], [4u8; 40]);
    let (half, one) = (four(0x8E), four(1));
    let mut first = [0u8; 40];
    let mut second = [0xFFu8; 40];
    mul_add_four_into(&half, &one, &a, &b, &c, &d, &mut first, &mut second);
    same(&rt, (first, second), ([0x0A; 40], [0xEB; 40]));
    mul_four_into(&one, &half, &a, &b, &c, &d, &mut first, &mut second);
    same(&rt, (first, second), ([0x14; 40], [0x0A; 40]));
}
