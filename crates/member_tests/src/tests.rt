// The courses that are played.
use crate::course::{Course, play};
use group_types::Shape;
use member_gateway::MemberGateway;
use std::alloc::Global;
use std::process::Abort;

const SHAPES: [(u32, u32); 6] = [(1, 0), (2, 1), (3, 2), (1, 1), (4, 2), (2, 2)];

/// Plays a course in a group of k and m, which ends as it is to.
fn plays(rt: &impl Abort, alloc: Global, shape: (u32, u32), number: u64, course: Course) {
    let shape = Shape::new(shape.0, shape.1, 64, 256).expect(rt, "a shape");
    let fault = play::<MemberGateway>(alloc, shape, number, course).expect(rt, "memory");
    assert!(rt; fault.is_none(), "by number {number}: {fault:?}");
}

#[test]
fn end_as_one_table_allows(rt: HostRuntime) {
    for number in 0..24u64 {
        let shape = SHAPES[(number % 6) as usize];
        plays(&rt, rt.alloc(), shape, number, Course::Turns(400));
    }
}

#[test]
fn count_each_once_while_the_head_dies(rt: HostRuntime) {
    plays(&rt, rt.alloc(), (4, 2), 1, Course::Count);
}

#[test]
fn keep_what_was_acknowledged_wherever_a_member_ends(rt: HostRuntime) {
    for lost in 0..4usize {
        plays(&rt, rt.alloc(), (2, 2), lost as u64, Course::Lose(lost));
    }
}

#[test]
fn ask_again_what_a_head_never_heard(rt: HostRuntime) {
    for (shape, seat) in [
        ((2, 2), 2),
        ((2, 2), 3),
        ((1, 1), 1),
        ((1, 2), 1),
        ((1, 2), 2),
    ] {
        plays(&rt, rt.alloc(), shape, 4, Course::Succeed(seat));
    }
}

#[test]
fn hear_nothing_of_ghosts(rt: HostRuntime) {
    plays(&rt, rt.alloc(), (3, 2), 3, Course::Haunt);
}

#[test]
fn leave_their_callers_to_others(rt: HostRuntime) {
    plays(&rt, rt.alloc(), (16, 4), 1, Course::Leave);
}

#[test]
fn hold_no_caller_where_nothing_is_taken(rt: HostRuntime) {
    for number in [2u64, 8] {
        plays(&rt, rt.alloc(), (16, 4), number, Course::Stall);
    }
}

#[test]
fn get_while_changes_wait_for_one_that_hangs(rt: HostRuntime) {
    plays(&rt, rt.alloc(), (16, 4), 2, Course::Hang);
}
