ghost use Rattle.std.specs.Prelude.{◌≡◌, ◌∷◌, ◌++◌, ◌<◌, OnOk};
ghost use Rattle.memc_table.specs.Act as acts;
ghost use Rattle.wire_codec.specs.Frame.{eight, process};
ghost use Rattle.wire_codec.specs.Fits.{FitsProcess};
ghost use Rattle.link_frames.specs.Limits.{FitsHello, FitsLink};
ghost use Rattle.link_frames.specs.Spelling as spec;
ghost use Rattle.link_frames.specs.Spelling.{answer_value, dimensions, greeting, link_before, link_behind, link_value, request_value};

use crate::frame::Frame;
use crate::hello::Hello;
use crate::put_act::put_request;
use crate::put_answer::put_told;
use crate::request::Request;
use crate::wish::Wish;
use group_calls::Answer;
use group_types::{ProcessId, Shape};
use memc_table::{Act, Reply};
use std::alloc::AllocError;
use wire_codec::fields::{
    put_eight, put_four, put_one, put_process, put_text_before, put_text_behind, put_two,
};
use wire_codec::value_of;

/// "cocytus" and the end of a line.
pub(crate) const MAGIC_WORD: u64 = 0x636F_6379_7475_730A;

/// The text of a frame up to its value.
pub(crate) fn put_before(out: &mut Vec<u8>, frame: &Frame) -> Result<(), AllocError>
    requires { FitsLink frame.now }
    ensures { OnOk result (out.new.items ≡ out.old.items ++ link_before frame.now) }
{
    match frame {
        Frame::Message(message) => put_text_before(out, message),
        Frame::Hello(hello) => {
            put_one(out, 11)?;
            put_hello(out, hello)
        }
        Frame::Said(names) => {
            put_one(out, 12)?;
            put_four(out, names.0)
        }
        Frame::Ping(number) => put_sign(out, 13, *number),
        Frame::Pong(number) => put_sign(out, 14, *number),
        Frame::Request(request) => put_request(out, request),
        Frame::Told(told) => put_told(out, told),
    }
}

/// The text of a frame behind its value.
pub(crate) fn put_behind(out: &mut Vec<u8>, frame: &Frame) -> Result<(), AllocError>
    requires { FitsLink frame.now }
    ensures { OnOk result (out.new.items ≡ out.old.items ++ link_behind frame.now) }
{
    match frame {
        Frame::Message(message) => put_text_behind(out, message),
        _ => Ok(()),
    }
}

/// The value that a frame carries.
pub(crate) fn carried_value(frame: &Frame) -> &[u8]
    ensures { result.now ≡ link_value frame.now }
{
    match frame {
        Frame::Message(message) => value_of(message),
        Frame::Request(request) => asked_value(request),
        Frame::Told(told) => shown_value(told.answer()),
        _ => &[],
    }
}

fn asked_value(request: &Request) -> &[u8]
    ensures { result.now ≡ request_value request.now }
{
    match request.parts().2 {
        Wish::Ask(op) => brought_value(op.act()),
        Wish::Trace(_) => &[],
    }
}

fn brought_value(act: &Act) -> &[u8]
    ensures { result.now ≡ acts.act_value act.now }
{
    match act {
        Act::Set { value, .. }
        | Act::Add { value, .. }
        | Act::Replace { value, .. }
        | Act::Cas { value, .. }
        | Act::Append { value, .. }
        | Act::Prepend { value, .. } => value.bytes(),
        _ => &[],
    }
}

fn shown_value(answer: &Answer) -> &[u8]
    ensures { result.now ≡ answer_value answer.now }
{
    match answer {
        Answer::Reply(Reply::Value(item)) => item.value.bytes(),
        _ => &[],
    }
}

/// A kind and a number.
fn put_sign(out: &mut Vec<u8>, kind: u32, number: u64) -> Result<(), AllocError>
    requires { kind < 256 }
    ensures { OnOk result (out.new.items ≡ out.old.items ++ (kind ∷ eight number)) }
{
    put_one(out, kind)?;
    put_eight(out, number)
}

fn put_hello(out: &mut Vec<u8>, hello: &Hello) -> Result<(), AllocError>
    requires { FitsHello hello.now }
    ensures { OnOk result (out.new.items ≡ out.old.items ++ spec.hello hello.now) }
{
    put_eight(out, MAGIC_WORD)?;
    put_greeting(out, hello)
}

fn put_greeting(out: &mut Vec<u8>, hello: &Hello) -> Result<(), AllocError>
    requires { FitsHello hello.now }
    ensures { OnOk result (out.new.items ≡ out.old.items ++ greeting hello.now) }
{
    put_two(out, hello.version)?;
    put_pair(out, hello.group.high, hello.group.low)?;
    put_shape(out, hello.shape)?;
    put_ends(out, hello.from, hello.to)?;
    put_eight(out, hello.drawn)?;
    Ok(())
}

fn put_pair(out: &mut Vec<u8>, high: u64, low: u64) -> Result<(), AllocError>
    ensures { OnOk result (out.new.items ≡ out.old.items ++ (eight high ++ eight low)) }
{
    put_eight(out, high)?;
    put_eight(out, low)
}

fn put_shape(out: &mut Vec<u8>, shape: Shape) -> Result<(), AllocError>
    ensures { OnOk result (out.new.items ≡ out.old.items ++ dimensions shape) }
{
    put_one(out, shape.k())?;
    put_one(out, shape.m())?;
    put_four(out, shape.blocks())?;
    put_four(out, shape.block())
}

fn put_ends(out: &mut Vec<u8>, from: ProcessId, to: ProcessId) -> Result<(), AllocError>
    requires from { FitsProcess from }
    requires to { FitsProcess to }
    ensures { OnOk result (out.new.items ≡ out.old.items ++ (process from ++ process to)) }
{
    put_process(out, from)?;
    put_process(out, to)
}
