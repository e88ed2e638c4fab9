ghost use Rattle.std.specs.Prelude.{◌≡◌};
ghost use Rattle.std.specs.Int.{w16, w32, w64};
ghost use Rattle.wire_codec.specs.Reading.{Gives, decode_bytes, decode_number, one_at};

use crate::fault::ReadFault;

/// The first bytes, as many as are asked, and those behind them.
pub fn take(bytes: &[u8], n: usize) -> Result<(&[u8], &[u8]), ReadFault>
    ensures { Gives (λ x. (x.0.now, x.1.now)) result (decode_bytes n bytes.now) }
{
    if bytes.len() < n {
        return Err(ReadFault::NoSpelling);
    }
    Ok(bytes.split_at(n))
}

/// A number of one byte.
pub fn take_one(bytes: &[u8]) -> Result<(u32, &[u8]), ReadFault>
    ensures { Gives (λ x. (x.0, x.1.now)) result (one_at bytes.now) }
{
    match bytes {
        [] => Err(ReadFault::NoSpelling),
        [byte, rest @ ..] => Ok((u32::from(*byte), rest)),
    }
}

/// A number of two bytes.
pub fn take_two(bytes: &[u8]) -> Result<(u16, &[u8]), ReadFault>
    ensures { Gives (λ x. (x.0, x.1.now)) result (decode_number w16 bytes.now) }
{
    if bytes.len() < 2 {
        return Err(ReadFault::NoSpelling);
    }
    let (front, rest) = bytes.split_at(2);
    Ok((u16::from_be_bytes([front[0], front[1]]), rest))
}

/// A number of four bytes.
pub fn take_four(bytes: &[u8]) -> Result<(u32, &[u8]), ReadFault>
    ensures { Gives (λ x. (x.0, x.1.now)) result (decode_number w32 bytes.now) }
{
    if bytes.len() < 4 {
        return Err(ReadFault::NoSpelling);
    }
    let (front, rest) = bytes.split_at(4);
    let number = u32::from_be_bytes([front[0], front[1], front[2], front[3]]);
    Ok((number, rest))
}

/// A number of eight bytes.
pub fn take_eight(bytes: &[u8]) -> Result<(u64, &[u8]), ReadFault>
    ensures { Gives (λ x. (x.0, x.1.now)) result (decode_number w64 bytes.now) }
{
    if bytes.len() < 8 {
        return Err(ReadFault::NoSpelling);
    }
    let (front, rest) = bytes.split_at(8);
    let number = u64::from_be_bytes([
        front[0], front[1], front[2], front[3], front[4], front[5], front[6], front[7],
    ]);
    Ok((number, rest))
}
