//! CRC-32C (Castagnoli), the sum of RFC 3720: what a link adds to its frames, to find bits that were changed on the way. The
//! contract is its definition bit by bit in `specs/Register.antt`; the code takes eight bytes a step, from tables that are checked
//! against the definition when the crate is.
#![tactic(auto)]

pub mod laws;
mod steps;
mod tables;

ghost use Rattle.std.specs.Prelude.{◌≡◌, ℕ, ◌++◌, List, [], bit_xor};
ghost use Rattle.crc32c.specs.Register.{all_ones, after_bytes};
ghost use Rattle.crc32c.specs.Register as spec;

use steps::{after_byte, after_front};

/// The CRC-32C of bytes.
pub fn checksum(bytes: &[u8]) -> u32
    ensures { result ≡ spec.checksum bytes.now }
{
    after(u32::MAX, bytes) ^ u32::MAX
}

/// The CRC-32C of bytes of which that of a front is known; `0` is that of no bytes.
pub fn extended(sum: u32, bytes: &[u8]) -> u32
    ensures { (front : List ℕ) → sum ≡ spec.checksum front → result ≡ spec.checksum (front ++ bytes.now) }
{
    after(sum ^ u32::MAX, bytes) ^ u32::MAX
}

/// The register behind bytes, from what it was before them.
fn after(before: u32, bytes: &[u8]) -> u32
    ensures { result ≡ after_bytes before bytes.now }
{
    let mut register = before;
    let mut rest = bytes;
    'eights: while rest.len() >= 8 {
        register = after_front(register, rest);
        rest = rest.split_at(8).1;
    }
    'bytes: for &byte in rest {
        register = after_byte(register, byte);
    }
    register
}
