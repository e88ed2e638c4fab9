ghost use Rattle.std.specs.Prelude.{◌≡◌, ◌∷◌, ◌++◌, ◌<◌, length, OnOk};
ghost use Rattle.group_types.specs.Key.{IsKey};
ghost use Rattle.wire_codec.specs.Frame.{four, eight, short};
ghost use Rattle.link_frames.specs.Limits.{FitsAct, FitsRequest, FitsValue};
ghost use Rattle.link_frames.specs.Spelling.{act_before, request_before, signed};

use crate::request::Request;
use crate::signed::put_signed;
use crate::wish::Wish;
use group_types::{Key, Payload};
use memc_table::Act;
use std::alloc::AllocError;
use wire_codec::fields::{put_eight, put_four, put_one, put_short};

/// A request up to the bytes of its value.
pub(crate) fn put_request(out: &mut Vec<u8>, request: &Request) -> Result<(), AllocError>
    requires { FitsRequest request.now }
    ensures { OnOk result (out.new.items ≡ out.old.items ++ request_before request.now) }
{
    let (caller, call, wish) = request.parts();
    match wish {
        Wish::Ask(op) => {
            put_call(out, 15, caller, call)?;
            put_eight(out, op.now())?;
            put_act(out, op.act())
        }
        Wish::Trace(partition) => {
            put_call(out, 16, caller, call)?;
            put_one(out, partition.0)
        }
    }
}

/// A kind, a caller and the position of its call.
pub(crate) fn put_call(
    out: &mut Vec<u8>,
    kind: u32,
    caller: u32,
    call: u64,
) -> Result<(), AllocError>
    requires kind { kind < 256 }
    requires caller { caller < 256 }
    ensures { OnOk result (out.new.items ≡ out.old.items ++ (kind ∷ caller ∷ eight call)) }
{
    put_one(out, kind)?;
    put_one(out, caller)?;
    put_eight(out, call)
}

fn put_act(out: &mut Vec<u8>, act: &Act) -> Result<(), AllocError>
    requires { FitsAct act.now }
    ensures { OnOk result (out.new.items ≡ out.old.items ++ act_before act.now) }
{
    match act {
        Act::Get { key } => put_key(out, 0, key),
        Act::Set {
            key,
            flags,
            expiry,
            value,
        } => {
            put_item(out, 1, key, *flags, *expiry)?;
            put_length(out, value)
        }
        Act::Add {
            key,
            flags,
            expiry,
            value,
        } => {
            put_item(out, 2, key, *flags, *expiry)?;
            put_length(out, value)
        }
        Act::Replace {
            key,
            flags,
            expiry,
            value,
        } => {
            put_item(out, 3, key, *flags, *expiry)?;
            put_length(out, value)
        }
        Act::Cas {
            key,
            flags,
            expiry,
            cas,
            value,
        } => {
            put_item(out, 4, key, *flags, *expiry)?;
            put_eight(out, *cas)?;
            put_length(out, value)
        }
        Act::Delete { key } => put_key(out, 5, key),
        Act::Touch { key, expiry } => put_touch(out, key, *expiry),
        Act::Append { key, value } => {
            put_key(out, 7, key)?;
            put_length(out, value)
        }
        Act::Prepend { key, value } => {
            put_key(out, 8, key)?;
            put_length(out, value)
        }
        Act::Incr { key, by } => {
            put_key(out, 9, key)?;
            put_eight(out, *by)
        }
        Act::Decr { key, by } => {
            put_key(out, 10, key)?;
            put_eight(out, *by)
        }
    }
}

/// A variant and a key.
fn put_key(out: &mut Vec<u8>, variant: u32, key: &Key) -> Result<(), AllocError>
    requires variant { variant < 256 }
    ensures { OnOk result (out.new.items ≡ out.old.items ++ (variant ∷ short key.now)) }
{
    put_one(out, variant)?;
    put_short(out, key.bytes())
}

fn put_touch(out: &mut Vec<u8>, key: &Key, expiry: i64) -> Result<(), AllocError>
    ensures { OnOk result (out.new.items ≡ out.old.items ++ (6 ∷ short key.now ++ signed expiry)) }
{
    put_key(out, 6, key)?;
    put_signed(out, expiry)?;
    Ok(())
}

/// A variant, a key, and an item's flags and expiry.
fn put_item(
    out: &mut Vec<u8>,
    variant: u32,
    key: &Key,
    flags: u32,
    expiry: i64,
) -> Result<(), AllocError>
    requires variant { variant < 256 }
    ensures { OnOk result (out.new.items ≡ out.old.items ++ (variant ∷ short key.now ++ four flags ++ signed expiry)) }
{
    put_key(out, variant, key)?;
    put_four(out, flags)?;
    put_signed(out, expiry)
}

/// How many bytes a value has.
pub(crate) fn put_length(out: &mut Vec<u8>, value: &Payload) -> Result<(), AllocError>
    requires { FitsValue value.now }
    ensures { OnOk result (out.new.items ≡ out.old.items ++ four (length value.now)) }
{
    put_four(out, value.len() as u32)
}
