//! Fields of frames that stand alone.
ghost use Rattle.std.specs.Prelude.{◌↔◌, IsTrue};
ghost use Rattle.wire_codec.specs.Fits.{FitsProcess, IsEight, IsFour};
ghost use Rattle.link_frames.specs.Limits.{FitsSigned, FitsValue};

use group_types::{Payload, ProcessId};

// A number fits where it is written by its type, whose range is known of what is passed by value.
pub(crate) fn fits_four(number: u32) -> bool
    ensures { IsTrue result ↔ IsFour number }
{
    true
}

pub(crate) fn fits_eight(number: u64) -> bool
    ensures { IsTrue result ↔ IsEight number }
{
    true
}

pub(crate) fn fits_signed(number: i64) -> bool
    ensures { IsTrue result ↔ FitsSigned number }
{
    true
}

pub(crate) fn fits_process(process: ProcessId) -> bool
    ensures { IsTrue result ↔ FitsProcess process }
{
    match process {
        ProcessId::DataNode(d) => d < 256,
        ProcessId::ParityNode(i) => i < 256,
    }
}

pub(crate) fn fits_value(value: &Payload) -> bool
    ensures { IsTrue result ↔ FitsValue value.now }
{
    value.len() <= 67_108_864
}
