// Scripts that are made of a number.
use crate::fixtures::same;
use group_types::hash::fnv1a_of;
use scenario_make::make_script;
use std::alloc::Global;
use std::process::Abort;

const FIRST: &[u8] = b"group 3 2 64 64
drain
ask 1 d1 get k16
ask 3 d0 get k4
ask 0 d0 get k19
ask 2 d0 set k2 0 *6*61
";

#[test]
fn the_first_lines_are_those_of_the_first_draws(rt: HostRuntime) {
    let text = make_script(rt.alloc(), 0).expect(&rt, "a script");
    assert!(rt; text.starts_with(FIRST));
    same(&rt, text.iter().filter(|&&b| b == b'\n').count(), 4007);
}

// The length and the hash of a number's script.
fn sum_of(rt: &impl Abort, alloc: Global, n: u64) -> (usize, u32) {
    let text = make_script(alloc, n).expect(rt, "a script");
    (text.len(), fnv1a_of(&text))
}

// Lengths and hashes of scripts that another program made.
#[test]
fn scripts_are_those_that_others_make(rt: HostRuntime) {
    for (n, sum) in [
        (0, (71_683, 0x39DA_B557)),
        (1, (72_127, 0x5243_3169)),
        (u64::MAX, (72_110, 0x175B_A348)),
    ] {
        same(&rt, sum_of(&rt, rt.alloc(), n), sum);
    }
}
