// Lines that are none of a script.
use group_types::Shape;
use scenario_text::LineFault;
use scenario_text::read_line::read_line;
use std::alloc::Global;

const REFUSED: [&'static str; 30] = [
    "group 2 1 4 16",
    "stop ",
    " stop",
    "ask 1  d0 get a",
    "ask 256 d0 get a",
    "ask 0 d2 get a",
    "ask 0 p1 get a",
    "ask 0 d0 gets a",
    "ask 0 d0 get a b",
    "ask 0 d0 get",
    "ask 0 d0 set a 4294967296 41",
    "ask 0 d0 set a 0",
    "ask 0 d0 set a 0 4",
    "ask 0 d0 set a 0 41 9223372036854775808",
    "ask 0 d0 set a 0 41 0 0",
    "ask 0 d0 set a 0 *0*41",
    "ask 0 d0 set a 0 *1*4",
    "ask 0 d0 set a 0 *1048577*41",
    "ask 0 d0 set a 0 **41",
    "ask 0 d0 set a 0 *1*",
    "ask 0 d0 set a 0 *1*41*",
    "ask 0 d0 append a 41 0",
    "ask 0 d0 touch a",
    "ask 0 d0 incr a -1",
    "collect 0 000000000000000000001 d0",
    "deliver p0 p0",
    "fail d0 4294967296",
    "trace 0 0 2 d0",
    "show d0 61 4",
    "time 4611686018427387905",
];

fn is_refused(alloc: Global, shape: Shape, text: &str) -> bool {
    matches!(
        read_line(alloc, Some(shape), text.as_bytes()),
        Err(LineFault::BadLine)
    )
}

#[test]
fn lines_that_mean_nothing_are_refused(rt: HostRuntime) {
    let shape = Shape::new(2, 1, 4, 16).expect(&rt, "a shape");
    for text in REFUSED {
        assert!(rt; is_refused(rt.alloc(), shape, text), "{text}");
    }
}
