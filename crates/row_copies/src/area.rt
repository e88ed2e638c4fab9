// Differences that are added to the bytes of an area of a parity process's space.
ghost use Rattle.std.specs.Prelude.{◌≡◌, ◌<◌, ◌≤◌, length, take};
ghost use Rattle.erasure_code.specs.Code.{coefficient};
ghost use Rattle.erasure_code.specs.Spaces.{added_at};
ghost use Rattle.field_byte.specs.Vectors.{scale};
ghost use Rattle.group_run.specs.Applying.{area_added, block_added};
ghost use Rattle.group_types.specs.declared.process.ProcessId.TheVariants.{ParityNode};

use cauchy_code::add_delta;
use group_message::Body;
use group_types::Shape;

/// Adds to the bytes of a block what an update of partition `d` makes in them.
pub fn add_body(shape: Shape, number: u32, d: u32, block: u32, body: &Body, bytes: &mut [u8])
    requires number { number < shape.m }
    requires partition { d < shape.k }
    requires block { block < shape.blocks }
    ensures { bytes.new ≡ block_added shape (ParityNode number) d block body.now bytes.old }
{
    match body {
        Body::Put { run, delta, .. } => add_run(
            shape.m(),
            number,
            d,
            block * shape.block(),
            run.at,
            delta.bytes(),
            bytes,
        ),
        Body::Remove | Body::Touch { .. } => {}
    }
}

// Adds a difference that begins at `at` to an area that begins at `from`, as far as it meets the area.
fn add_run(m: u32, i: u32, d: u32, from: u32, at: u32, delta: &[u8], area: &mut [u8])
    requires m { m ≤ 4 }
    requires i { i < m }
    requires d { d ≤ 15 }
    ensures { area.new ≡ area_added from at (scale (coefficient m i d) delta.now) area.old }
{
    if at <= from {
        let missed = ((from - at) as usize).min(delta.len());
        return add_front(m, i, d, &delta[missed..], area);
    }
    let before = ((at - from) as usize).min(area.len());
    add_front(m, i, d, delta, &mut area[before..]);
}

// Adds a difference to the bytes from the first on, as many as there are of both.
fn add_front(m: u32, i: u32, d: u32, delta: &[u8], area: &mut [u8])
    requires m { m ≤ 4 }
    requires i { i < m }
    requires d { d ≤ 15 }
    ensures { area.new ≡ added_at 0 (take (length area.old) (scale (coefficient m i d) delta.now)) area.old }
{
    let len = area.len().min(delta.len());
    if len == 0 {
        return;
    }
    add_delta(m, i, d, &delta[..len], &mut area[..len]);
}
