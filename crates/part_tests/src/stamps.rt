// Stamps of a number for each partition.
use crate::fixtures::same;
use vector_stamp::Stamp;

#[test]
fn compares_number_by_number(rt: HostRuntime) {
    let mut stamp = Stamp::zero(rt.alloc(), 2).expect(&rt, "a stamp");
    let before = stamp.copy().expect(&rt, "a copy");
    stamp.raise(1, 7);
    same(&rt, (stamp.at(0), stamp.at(1), stamp.least()), (0, 7, 0));
    same(
        &rt,
        (stamp.covers(&before), before.covers(&stamp)),
        (true, false),
    );
}
