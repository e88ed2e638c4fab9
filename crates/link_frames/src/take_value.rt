ghost use Rattle.std.specs.Prelude.{◌≡◌};
ghost use Rattle.wire_codec.specs.Reading.{Gives};
ghost use Rattle.link_frames.specs.Texts.{value_at};

use group_types::Payload;
use std::alloc::Global;
use wire_codec::fields::{ReadFault, take_long};

/// A value, with its length before it.
pub(crate) fn take_value(alloc: Global, bytes: &[u8]) -> Result<(Payload, &[u8]), ReadFault>
    ensures { Gives (λ x. (x.0, x.1.now)) result (value_at bytes.now) }
{
    let (value, rest) = take_short_of_space(bytes)?;
    Ok((Payload::of(alloc, value)?, rest))
}

#[tactic(auto, unfolding(crate::specs::Texts::value_at))]
fn take_short_of_space(bytes: &[u8]) -> Result<(&[u8], &[u8]), ReadFault>
    ensures { Gives (λ x. (x.0.now, x.1.now)) result (value_at bytes.now) }
{
    let (value, rest) = take_long(bytes)?;
    if value.len() > 67_108_864 {
        return Err(ReadFault::NoSpelling);
    }
    Ok((value, rest))
}
