// The spaces of a data and of a parity process, over pages.
ghost use Rattle.std.specs.Prelude.{◌≡◌};
ghost use Rattle.page_map.specs.Spaces.{LiesIn};

use crate::fixtures::{key, payload, same, shape};
use group_message::{Body, Outcome, Update};
use group_types::{Partition, Run, Shape};
use parity_space::ParitySpace;
use std::alloc::Global;
use std::process::Abort;
use value_space::ValueSpace;

const CART: Run = Run { at: 14, len: 4 };

const LOCK: Run = Run { at: 15, len: 19 };

#[test]
fn one_byte_makes_one_page(rt: HostRuntime) {
    let shape = Shape::new(1, 0, 1024, 65_536).expect(&rt, "a shape");
    let mut space = ValueSpace::new(rt.alloc(), shape).expect(&rt, "a space");
    same(&rt, space.made(), 0);
    let run = Run { at: 0, len: 1 };
    space.reserve(run).expect(&rt, "room");
    space.apply(run, &payload(&rt, rt.alloc(), b"g"));
    same(&rt, space.made(), 1);
    begins(&rt, &space, run, b"g");
}

// Four blocks of 16 bytes, and a value across the end of the first.
fn with_cart(rt: &impl Abort, alloc: Global) -> ValueSpace
    ensures { result.shape ≡ record { k = 1; m = 0; blocks = 4; block = 16 } }
{
    let mut space = ValueSpace::new(alloc, shape(rt, 1, 0, 4)).expect(rt, "a space");
    space.reserve(CART).expect(rt, "room");
    space.apply(CART, &payload(rt, alloc, b"cart"));
    space
}

#[test]
fn a_value_crosses_the_end_of_a_page(rt: HostRuntime) {
    let mut space = with_cart(&rt, rt.alloc());
    begins(&rt, &space, CART, b"cart");
    differs(&rt, rt.alloc(), &space, LOCK);
    space.reserve(LOCK).expect(&rt, "room");
    space.apply(LOCK, &payload(&rt, rt.alloc(), &[0x20; 19]));
    begins(&rt, &space, LOCK, b"ART ");
}

// The bytes of a run begin with these.
fn begins(rt: &impl Abort, space: &ValueSpace, run: Run, bytes: &[u8])
    requires { LiesIn run space.now.shape }
{
    let copied = space.copy(run).expect(rt, "a copy");
    assert!(rt; copied.bytes().starts_with(bytes));
}

// A difference is that of the bytes which are there.
fn differs(rt: &impl Abort, alloc: Global, space: &ValueSpace, run: Run)
    requires within { LiesIn run space.now.shape }
    requires long { run.len ≡ 19 }
{
    let value = payload(rt, alloc, b"a lock of two pages");
    let delta = space.delta_for(run, &value).expect(rt, "a difference");
    assert!(rt;
        delta
            .bytes()
            .starts_with(&[0, b' ' ^ b'r', b'l' ^ b't', b'o'])
    );
}

fn update(rt: &impl Abort, alloc: Global, body: Body) -> Update
    ensures { result.body ≡ body }
{
    Update {
        number: 1,
        caller: 0,
        call: 1,
        key: key(rt, alloc, b"g"),
        body,
        frees: None,
        outcome: Outcome::Stored,
    }
}

#[test]
fn adds_the_product_across_the_ends_of_pages(rt: HostRuntime) {
    let shape = shape(&rt, 2, 2, 4);
    let mut space = ParitySpace::new(rt.alloc(), shape, 1).expect(&rt, "a space");
    let run = Run { at: 14, len: 20 };
    space.reserve(run).expect(&rt, "room");
    let put = Body::Put {
        flags: 0,
        until: None,
        run,
        delta: payload(&rt, rt.alloc(), &[1; 20]),
    };
    space.apply(Partition(0), &update(&rt, rt.alloc(), put));
    space.apply(Partition(0), &update(&rt, rt.alloc(), Body::Remove));
    // The inverse of 1 + (2 + 0) is 0xF4.
    let bytes = space.range(run).expect(&rt, "bytes");
    same(&rt, bytes.bytes(), [0xF4; 20].as_slice());
    let mut read = [9u8; 2];
    space.read_into(Run { at: 13, len: 2 }, &mut read);
    same(&rt, read, [0, 0xF4]);
}
