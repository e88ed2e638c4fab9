//! The laws of the field, each a statement on the definition alone for the bytes that it takes.
ghost use Rattle.std.specs.Prelude.{◌≡◌, ◌≢◌, ℕ, ◌⊎◌, ◌<◌, bit_xor};
ghost use Rattle.field_byte.specs.Field.{inverse, power, product};

/// The sum of bytes is a byte.
#[tactic(auto, using(crate::proofs::Sums::sum_lt))]
pub fn sum_is_a_byte(a: u8, b: u8)
    ensures { bit_xor a b < 256 }
{}

/// 0 changes nothing.
pub fn zero_is_neutral(a: u8)
    ensures { bit_xor 0 a ≡ a }
{}

pub fn sum_commutes(a: u8, b: u8)
    ensures { bit_xor a b ≡ bit_xor b a }
{}

pub fn sum_associates(a: u8, b: u8, c: u8)
    ensures { bit_xor (bit_xor a b) c ≡ bit_xor a (bit_xor b c) }
{}

/// Every byte is its own negative.
pub fn sum_with_itself_is_zero(a: u8)
    ensures { bit_xor a a ≡ 0 }
{}

/// The product of bytes is a byte.
#[tactic(auto, using(crate::proofs::Products::product_lt))]
pub fn product_is_a_byte(a: u8, b: u8)
    ensures { product a b < 256 }
{}

/// 1 changes nothing.
#[tactic(auto, using(crate::proofs::Products::product_one_l))]
pub fn one_is_neutral(a: u8)
    ensures { product 1 a ≡ a }
{}

#[tactic(auto, using(crate::proofs::Products::product_comm))]
pub fn product_commutes(a: u8, b: u8)
    ensures { product a b ≡ product b a }
{}

#[tactic(auto, using(crate::proofs::Products::product_assoc))]
pub fn product_associates(a: u8, b: u8, c: u8)
    ensures { product (product a b) c ≡ product a (product b c) }
{}

#[tactic(auto, using(crate::proofs::Products::product_sum_r))]
pub fn product_distributes(a: u8, b: u8, c: u8)
    ensures { product a (bit_xor b c) ≡ bit_xor (product a b) (product a c) }
{}

/// A product is 0 only where a factor is.
#[tactic(auto, using(crate::proofs::Products::zero_factor))]
pub fn product_has_no_zero_divisor(a: u8, b: u8)
    requires { product a b ≡ 0 }
    ensures { (a ≡ 0) ⊎ (b ≡ 0) }
{}

/// Every byte but 0 has its inverse, which is a byte.
#[tactic(auto, using(crate::proofs::Products::inverse_lt, crate::proofs::Products::product_inverse))]
pub fn inverse_exists(a: u8)
    requires { a ≢ 0 }
    ensures byte { inverse a < 256 }
    ensures product { product a (inverse a) ≡ 1 }
{}

/// No other byte is it.
#[tactic(auto, using(crate::proofs::Products::inverse_is))]
pub fn inverse_is_unique(a: u8, b: u8)
    requires { product a b ≡ 1 }
    ensures { b ≡ inverse a }
{}

/// Every byte but 0 is one of the 255 powers of 2.
pub fn powers_are_all(a: u8)
    requires { a ≢ 0 }
    ensures { (i : ℕ) × (i < 255) × (power i ≡ a) }
{}

/// The 255 powers of 2 are bytes, none of them 0.
#[tactic(auto, using(crate::proofs::Powers::power_lt, crate::proofs::Powers::power_nonzero))]
pub fn powers_are_nonzero(i: u8)
    requires { i < 255 }
    ensures byte { power i < 256 }
    ensures nonzero { power i ≢ 0 }
{}

/// No two of them are the same.
pub fn powers_differ(i: u8, j: u8)
    requires i { i < 255 }
    requires j { j < 255 }
    requires same { power i ≡ power j }
    ensures { i ≡ j }
{}
