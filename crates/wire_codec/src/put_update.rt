ghost use Rattle.std.specs.Prelude.{◌≡◌, ◌<◌, ◌∷◌, ◌++◌, ◌^◌, OnOk};
ghost use Rattle.wire_codec.specs.Fits.{FitsBody, FitsUpdate};
ghost use Rattle.wire_codec.specs.Frame as spec;
ghost use Rattle.wire_codec.specs.Frame.{four, eight, maybe, update};
ghost use Rattle.wire_codec.specs.Parts as parts;
ghost use Rattle.wire_codec.specs.Parts.{body_before, update_before};

use crate::put_numbers::{put_eight, put_four, put_one, put_short};
use group_message::{Body, Outcome, Update};
use group_types::Run;
use std::alloc::AllocError;

/// An update up to its value.
pub(crate) fn put_update_before(out: &mut Vec<u8>, u: &Update) -> Result<(), AllocError>
    requires { FitsUpdate u.now }
    ensures { OnOk result (out.new.items ≡ out.old.items ++ update_before u.now) }
{
    put_eight(out, u.number)?;
    put_one(out, u.caller)?;
    put_eight(out, u.call)?;
    put_short(out, u.key.bytes())?;
    put_body_before(out, &u.body)?;
    Ok(())
}

fn put_body_before(out: &mut Vec<u8>, body: &Body) -> Result<(), AllocError>
    requires { FitsBody body.now }
    ensures { OnOk result (out.new.items ≡ out.old.items ++ body_before body.now) }
{
    match body {
        Body::Put {
            flags,
            until,
            run,
            delta,
        } => put_put(out, *flags, *until, *run, delta.len()),
        Body::Remove => put_one(out, 1),
        Body::Touch { until } => {
            put_one(out, 2)?;
            put_until(out, *until)
        }
    }
}

fn put_put(
    out: &mut Vec<u8>,
    flags: u32,
    until: Option<u64>,
    run: Run,
    len: usize,
) -> Result<(), AllocError>
    requires { len < 2 ^ 32 }
    ensures { OnOk result (out.new.items ≡ out.old.items ++ (0 ∷ four flags ++ maybe eight until
        ++ spec.run run ++ four len)) }
{
    put_one(out, 0)?;
    put_four(out, flags)?;
    put_until(out, until)?;
    put_run(out, run)?;
    put_four(out, len as u32)
}

fn put_until(out: &mut Vec<u8>, until: Option<u64>) -> Result<(), AllocError>
    ensures { OnOk result (out.new.items ≡ out.old.items ++ maybe eight until) }
{
    match until {
        None => put_one(out, 0),
        Some(until) => {
            put_one(out, 1)?;
            put_eight(out, until)
        }
    }
}

fn put_run(out: &mut Vec<u8>, run: Run) -> Result<(), AllocError>
    ensures { OnOk result (out.new.items ≡ out.old.items ++ spec.run run) }
{
    put_four(out, run.at)?;
    put_four(out, run.len)
}

/// What an update frees and is answered.
pub(crate) fn put_effect(
    out: &mut Vec<u8>,
    frees: Option<Run>,
    outcome: Outcome,
) -> Result<(), AllocError>
    ensures { OnOk result (out.new.items ≡ out.old.items ++ (maybe spec.run frees ++ spec.outcome outcome)) }
{
    put_frees(out, frees)?;
    put_outcome(out, outcome)
}

fn put_frees(out: &mut Vec<u8>, frees: Option<Run>) -> Result<(), AllocError>
    ensures { OnOk result (out.new.items ≡ out.old.items ++ maybe spec.run frees) }
{
    match frees {
        None => put_one(out, 0),
        Some(run) => {
            put_one(out, 1)?;
            put_run(out, run)
        }
    }
}

fn put_outcome(out: &mut Vec<u8>, outcome: Outcome) -> Result<(), AllocError>
    ensures { OnOk result (out.new.items ≡ out.old.items ++ spec.outcome outcome) }
{
    match outcome {
        Outcome::Stored => put_one(out, 0),
        Outcome::Deleted => put_one(out, 1),
        Outcome::Touched => put_one(out, 2),
        Outcome::Number(number) => {
            put_one(out, 3)?;
            put_eight(out, number)
        }
    }
}

/// An update.
pub(crate) fn put_update(out: &mut Vec<u8>, u: &Update) -> Result<(), AllocError>
    requires { FitsUpdate u.now }
    ensures { OnOk result (out.new.items ≡ out.old.items ++ update u.now) }
{
    put_update_before(out, u)?;
    out.extend_from_slice(delta_of(&u.body))?;
    put_effect(out, u.frees, u.outcome)?;
    Ok(())
}

/// The value that an update carries.
pub(crate) fn delta_of(body: &Body) -> &[u8]
    ensures { result.now ≡ parts.delta_of body.now }
{
    match body {
        Body::Put { delta, .. } => delta.bytes(),
        _ => &[],
    }
}
