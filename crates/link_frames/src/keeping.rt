ghost use Rattle.std.specs.Prelude.{◌↔◌, IsTrue};
ghost use Rattle.link_frames.specs.Limits.{FitsHello, FitsLink, HasLink, IsNotice, NamesWithin};

use crate::fits_act::fits_request;
use crate::fits_number::{fits_eight, fits_four, fits_process};
use crate::fits_told::fits_told;
use crate::frame::Frame;
use crate::hello::Hello;
use group_message::Message;
use group_types::Shape;
use wire_codec::has_frame;

/// Whether a link of a group of this shape may carry a frame.
pub fn has_link(shape: Shape, frame: &Frame) -> bool
    ensures { IsTrue result ↔ HasLink shape frame.now }
{
    fits_link(frame) && is_of_group(shape, frame)
}

fn is_of_group(shape: Shape, frame: &Frame) -> bool
    ensures { IsTrue result ↔ NamesWithin shape frame.now }
{
    match frame {
        Frame::Said(names) => names.0 < 1 << (shape.k() + shape.m()),
        _ => true,
    }
}

/// Whether a frame has a spelling on links.
pub fn fits_link(frame: &Frame) -> bool
    ensures { IsTrue result ↔ FitsLink frame.now }
{
    match frame {
        Frame::Message(message) => has_frame(message) && !is_notice(message),
        Frame::Hello(hello) => fits_hello(*hello),
        Frame::Said(names) => fits_four(names.0),
        Frame::Ping(number) => fits_eight(*number),
        Frame::Pong(number) => fits_eight(*number),
        Frame::Request(request) => fits_request(request),
        Frame::Told(told) => fits_told(told),
    }
}

fn is_notice(message: &Message) -> bool
    ensures { IsTrue result ↔ IsNotice message.now }
{
    matches!(message, Message::Notice { .. })
}

fn fits_hello(hello: Hello) -> bool
    ensures { IsTrue result ↔ FitsHello hello }
{
    let _ = hello.shape.k();
    fits_process(hello.from) && fits_process(hello.to)
}
