ghost use Rattle.std.specs.Prelude.{◌↔◌, IsTrue};
ghost use Rattle.wire_codec.specs.Fits.{IsFour};
ghost use Rattle.link_frames.specs.Limits.{FitsAct, FitsAsked, FitsRequest, FitsSigned, FitsValue};

use crate::fits_number::{fits_eight, fits_signed, fits_value};
use crate::request::Request;
use crate::wish::Wish;
use group_types::Payload;
use memc_table::{Act, Op};

pub(crate) fn fits_request(request: &Request) -> bool
    ensures { IsTrue result ↔ FitsRequest request.now }
{
    let (caller, call, wish) = request.parts();
    match wish {
        Wish::Ask(op) => caller < 256 && fits_op(op),
        Wish::Trace(d) => caller < 256 && d.0 < 256 && fits_eight(call),
    }
}

fn fits_op(op: &Op) -> bool
    ensures { IsTrue result ↔ FitsAsked op.now }
{
    op.now() <= 1 << 62 && fits_act(op.act())
}

fn fits_act(act: &Act) -> bool
    ensures { IsTrue result ↔ FitsAct act.now }
{
    let _key = act.key().bytes();
    match act {
        Act::Get { .. } => true,
        Act::Set {
            flags,
            expiry,
            value,
            ..
        } => fits_stored(*flags, *expiry, value),
        Act::Add {
            flags,
            expiry,
            value,
            ..
        } => fits_stored(*flags, *expiry, value),
        Act::Replace {
            flags,
            expiry,
            value,
            ..
        } => fits_stored(*flags, *expiry, value),
        Act::Cas {
            flags,
            expiry,
            cas,
            value,
            ..
        } => fits_eight(*cas) && fits_stored(*flags, *expiry, value),
        Act::Delete { .. } => true,
        Act::Touch { expiry, .. } => fits_signed(*expiry),
        Act::Append { value, .. } => fits_value(value),
        Act::Prepend { value, .. } => fits_value(value),
        Act::Incr { by, .. } => fits_eight(*by),
        Act::Decr { by, .. } => fits_eight(*by),
    }
}

// Whether what is stored beside its key fits.
fn fits_stored(flags: u32, expiry: i64, value: &Payload) -> bool
    ensures { IsTrue result ↔ (IsFour flags × FitsSigned expiry × FitsValue value.now) }
{
    fits_value(value)
}
