ghost use Rattle.std.specs.Prelude.{◌≡◌, ◌<◌, ◌++◌, length, OnOk};
ghost use Rattle.wire_codec.specs.Frame.{one, two, four, eight, short};

use byteorder::{BigEndian, ByteOrder};
use std::alloc::AllocError;

/// A number of one byte.
pub fn put_one(out: &mut Vec<u8>, n: u32) -> Result<(), AllocError>
    requires { n < 256 }
    ensures { OnOk result (out.new.items ≡ out.old.items ++ one n) }
{
    out.push(n as u8)?;
    Ok(())
}

/// A number of two bytes.
pub fn put_two(out: &mut Vec<u8>, n: u16) -> Result<(), AllocError>
    ensures { OnOk result (out.new.items ≡ out.old.items ++ two n) }
{
    let mut field = [0; 2];
    BigEndian::write_u16(&mut field, n);
    out.extend_from_slice(&field)
}

/// A number of four bytes.
pub fn put_four(out: &mut Vec<u8>, n: u32) -> Result<(), AllocError>
    ensures { OnOk result (out.new.items ≡ out.old.items ++ four n) }
{
    let mut field = [0; 4];
    BigEndian::write_u32(&mut field, n);
    out.extend_from_slice(&field)
}

/// A number of eight bytes.
pub fn put_eight(out: &mut Vec<u8>, n: u64) -> Result<(), AllocError>
    ensures { OnOk result (out.new.items ≡ out.old.items ++ eight n) }
{
    let mut field = [0; 8];
    BigEndian::write_u64(&mut field, n);
    out.extend_from_slice(&field)
}

/// Few bytes behind their number.
pub fn put_short(out: &mut Vec<u8>, bytes: &[u8]) -> Result<(), AllocError>
    requires { length bytes.now < 256 }
    ensures { OnOk result (out.new.items ≡ out.old.items ++ short bytes.now) }
{
    put_one(out, bytes.len() as u32)?;
    out.extend_from_slice(bytes)
}
