// The field of the code.
use crate::fixtures::same;
use field_byte::{Split, inv, mul};

#[test]
fn products_of_single_bits(rt: HostRuntime) {
    let split = Split::of(0x8E);
    let products = [
        split.coef(),
        split.mul(0x02),
        split.mul(0x10),
        Split::of(0xF4).mul(0x03),
    ];
    same(&rt, products, [0x8E, 0x01, 0x08, 0x01]);
}

#[test]
fn split_products_are_products(rt: HostRuntime) {
    for coef in 0..=255u8 {
        let split = Split::of(coef);
        for b in 0..=255u8 {
            same(&rt, split.mul(b), mul(coef, b));
        }
    }
}

#[test]
fn inverses_are_those_of_the_polynomial_11d(rt: HostRuntime) {
    let inverses = [inv(1), inv(2), inv(3), inv(4), inv(5)];
    same(&rt, inverses, [0x01, 0x8E, 0xF4, 0x47, 0xA7]);
}
