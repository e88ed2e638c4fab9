ghost use Rattle.std.specs.Prelude.{◌≡◌};
ghost use Rattle.wire_codec.specs.Reading.{Gives};
ghost use Rattle.link_frames.specs.Texts.{ends_at, greeting_at, group_at, hello_at, shape_at};

use crate::hello::{GroupId, Hello};
use crate::put_frame::MAGIC_WORD;
use group_types::{ProcessId, Shape};
use wire_codec::fields::{ReadFault, take_eight, take_four, take_one, take_process, take_two};

/// A greeting, behind its kind.
#[tactic(auto, unfolding(crate::specs::Texts::hello_at))]
pub(crate) fn take_hello(bytes: &[u8]) -> Result<(Hello, &[u8]), ReadFault>
    ensures { Gives (λ x. (x.0, x.1.now)) result (hello_at bytes.now) }
{
    let (word, rest) = take_eight(bytes)?;
    if word != MAGIC_WORD {
        return Err(ReadFault::NoSpelling);
    }
    take_greeting(rest)
}

#[tactic(auto, unfolding(crate::specs::Texts::greeting_at))]
fn take_greeting(bytes: &[u8]) -> Result<(Hello, &[u8]), ReadFault>
    ensures { Gives (λ x. (x.0, x.1.now)) result (greeting_at bytes.now) }
{
    let (version, rest) = take_two(bytes)?;
    let (group, rest) = take_group(rest)?;
    let (shape, rest) = match take_shape(rest) {
        Ok(taken) => taken,
        Err(fault) => return Err(fault),
    };
    let ((from, to), rest) = take_ends(rest)?;
    let (drawn, rest) = take_eight(rest)?;
    let hello = Hello {
        version,
        group,
        shape,
        from,
        to,
        drawn,
    };
    Ok((hello, rest))
}

#[tactic(auto, unfolding(crate::specs::Texts::group_at))]
fn take_group(bytes: &[u8]) -> Result<(GroupId, &[u8]), ReadFault>
    ensures { Gives (λ x. (x.0, x.1.now)) result (group_at bytes.now) }
{
    let (high, rest) = take_eight(bytes)?;
    let (low, rest) = take_eight(rest)?;
    Ok((GroupId { high, low }, rest))
}

#[tactic(auto, unfolding(crate::specs::Texts::ends_at))]
fn take_ends(bytes: &[u8]) -> Result<((ProcessId, ProcessId), &[u8]), ReadFault>
    ensures { Gives (λ x. (x.0, x.1.now)) result (ends_at bytes.now) }
{
    let (from, rest) = take_process(bytes)?;
    let (to, rest) = take_process(rest)?;
    Ok(((from, to), rest))
}

#[tactic(auto, unfolding(crate::specs::Texts::shape_at))]
fn take_shape(bytes: &[u8]) -> Result<(Shape, &[u8]), ReadFault>
    ensures { Gives (λ x. (x.0, x.1.now)) result (shape_at bytes.now) }
{
    let (k, rest) = take_one(bytes)?;
    let (m, rest) = take_one(rest)?;
    let (blocks, rest) = take_four(rest)?;
    let (block, rest) = take_four(rest)?;
    match Shape::new(k, m, blocks, block) {
        Ok(shape) => Ok((shape, rest)),
        Err(_) => Err(ReadFault::NoSpelling),
    }
}
