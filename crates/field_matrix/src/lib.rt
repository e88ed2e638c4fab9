//! Squares over the field of `field_byte`, and the inverse of a Cauchy square, which there always
//! is. The contract says that the inverse is one on both sides; that a system of a Cauchy square
//! therefore has one solution is a lemma (`proofs/Inverses.antt`) for the crates above.
#![tactic(auto)]

mod elimination;
mod square;

pub use square::Square;
