//! The register behind one byte, and behind eight.
ghost use Rattle.std.specs.Prelude.{◌≡◌, ◌≤◌, bit_xor, drop, length};
ghost use Rattle.crc32c.specs.Register.{after_bytes, shifted_by};

use crate::tables::{
    eight_bytes, five_bytes, four_bytes, one_byte, seven_bytes, six_bytes, three_bytes, two_bytes,
};

/// The register behind a byte.
#[inline(always)]
pub(crate) fn after_byte(register: u32, byte: u8) -> u32
    ensures { result ≡ shifted_by 8 (bit_xor register byte) }
{
    let low = (register % 256) as u8 ^ byte;
    one_byte(low) ^ (register >> 8)
}

/// The register behind the first eight bytes.
#[inline(always)]
pub(crate) fn after_front(register: u32, bytes: &[u8]) -> u32
    requires { 8 ≤ length bytes.now }
    ensures { after_bytes result (drop 8 bytes.now) ≡ after_bytes register bytes.now }
{
    let eight = u64::from_le_bytes([
        bytes[0], bytes[1], bytes[2], bytes[3], bytes[4], bytes[5], bytes[6], bytes[7],
    ]);
    after_eight(register, eight)
}

/// The register behind eight bytes, the first of them the lowest of the number. Each byte is added as it stands, so that with
/// the zeros behind it it falls out as its own table says.
#[inline(always)]
fn after_eight(register: u32, eight: u64) -> u32
    ensures { result ≡ shifted_by 64 (bit_xor register eight) }
{
    let [a, b, c, d, e, f, g, h] = (u64::from(register) ^ eight).to_le_bytes();
    let front = eight_bytes(a) ^ seven_bytes(b) ^ six_bytes(c) ^ five_bytes(d);
    front ^ four_bytes(e) ^ three_bytes(f) ^ two_bytes(g) ^ one_byte(h)
}
