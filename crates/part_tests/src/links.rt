// Links in order.
use crate::fixtures::same;
use link_core::Links;

#[test]
fn keeps_the_order_of_each_target(rt: HostRuntime) {
    let mut links = Links::new(rt.alloc(), 2).expect(&rt, "links");
    links.reserve(3).expect(&rt, "room");
    links.send(1, 7u32);
    links.send(1, 8);
    links.send(0, 9);
    links.send(1, 10);
    let front = [links.peek(1).copied(), links.pop(1)];
    links.cut(1, 1);
    same(
        &rt,
        (front, [links.pop(1), links.pop(1)]),
        ([Some(7), Some(7)], [Some(8), None]),
    );
    same(&rt, [links.is_empty(0), links.is_empty(1)], [false, true]);
}
