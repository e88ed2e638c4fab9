ghost use Rattle.std.specs.Prelude.{◌≡◌, ◌+◌, ◌≤◌, ◌<◌};
ghost use Rattle.group_types.specs.Dimensions.{processes_of};
ghost use Rattle.group_types.specs.Shape.{IsShape};
ghost use Rattle.group_stage.specs.Places as places;

use group_types::Shape;

// How many processes there are.
pub(crate) fn processes_of(shape: Shape) -> usize
    ensures value { result ≡ processes_of shape }
    ensures few { result ≤ 20 }
    ensures limits { IsShape shape }
{
    (shape.k() + shape.m()) as usize
}

// The word of a process, eight words from the next, or one of the two words behind those.
pub(crate) fn word_of(shape: Shape, place: usize) -> usize
    requires { place < processes_of shape + 2 }
    ensures { result ≡ places.word_of place }
{
    let _few = processes_of(shape);
    place * 8
}

// The slot of a process's node, two slots from the next.
pub(crate) fn slot_of(shape: Shape, place: usize) -> usize
    requires { place < processes_of shape }
    ensures { result ≡ places.slot_of place }
{
    let _few = processes_of(shape);
    place * 2
}
