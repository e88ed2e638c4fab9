// Free runs of a space.
use crate::fixtures::same;
use run_alloc::{FreeRuns, NoRun};

#[test]
fn takes_the_shortest_run_that_serves(rt: HostRuntime) {
    let mut space = FreeRuns::new(rt.alloc(), 16).expect(&rt, "a space");
    assert_eq!(rt; space.take(10), Ok(0));
    assert_eq!(rt; space.take(6), Ok(10));
    assert_eq!(rt; space.take(1), Err(NoRun));
    space.reserve(2).expect(&rt, "room");
    space.give(0, 10);
    assert_eq!(rt; space.take(7), Ok(0));
    space.take_at(8, 1);
    same(&rt, (space.fits(1), space.fits(2)), (Some(7), None));
}
