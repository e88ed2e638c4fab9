//! Numbers with a sign, in two's complement.
ghost use Rattle.std.specs.Prelude.{◌≡◌, ◌++◌, OnOk};
ghost use Rattle.wire_codec.specs.Reading.{Gives};
ghost use Rattle.link_frames.specs.Spelling as spelling;
ghost use Rattle.link_frames.specs.Spelling.{signed};
ghost use Rattle.link_frames.specs.Texts.{number_with_sign, signed_at};

use std::alloc::AllocError;
use wire_codec::fields::{ReadFault, put_eight, take_eight};

fn unsigned(z: i64) -> u64
    ensures { result ≡ spelling.unsigned z }
{
    if z < 0 {
        u64::MAX - (-(z + 1)) as u64
    } else {
        z as u64
    }
}

fn with_sign(n: u64) -> i64
    ensures { result ≡ number_with_sign n }
{
    if n < 1 << 63 {
        n as i64
    } else {
        -((u64::MAX - n) as i64) - 1
    }
}

pub(crate) fn put_signed(out: &mut Vec<u8>, z: i64) -> Result<(), AllocError>
    ensures { OnOk result (out.new.items ≡ out.old.items ++ signed z) }
{
    put_eight(out, unsigned(z))
}

#[tactic(auto, unfolding(crate::specs::Texts::signed_at))]
pub(crate) fn take_signed(bytes: &[u8]) -> Result<(i64, &[u8]), ReadFault>
    ensures { Gives (λ x. (x.0, x.1.now)) result (signed_at bytes.now) }
{
    let (n, rest) = take_eight(bytes)?;
    Ok((with_sign(n), rest))
}
