// Keys, values and shapes of tests, where there is memory for them.
ghost use Rattle.std.specs.Prelude.{◌≡◌};

use group_types::{Key, Payload, Shape};
use std::alloc::Global;
use std::fmt::Debug;
use std::process::Abort;

/// Stops where what is found isn't what is wanted.
pub(crate) fn same<T: Copy + PartialEq + Debug>(rt: &impl Abort, found: T, wanted: T) {
    assert_eq!(rt; found, wanted);
}

pub(crate) fn key(rt: &impl Abort, alloc: Global, bytes: &[u8]) -> Key {
    Key::read(alloc, bytes).expect(rt, "a key")
}

pub(crate) fn payload(rt: &impl Abort, alloc: Global, bytes: &[u8]) -> Payload
    ensures { result ≡ bytes.now }
{
    Payload::of(alloc, bytes).expect(rt, "a payload")
}

/// A shape of spaces with blocks of 16 bytes.
pub(crate) fn shape(rt: &impl Abort, k: u32, m: u32, blocks: u32) -> Shape
    ensures { result ≡ record { k = k; m = m; blocks = blocks; block = 16 } }
{
    Shape::new(k, m, blocks, 16).expect(rt, "a shape")
}
