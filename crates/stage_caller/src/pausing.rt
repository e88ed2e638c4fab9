use std::thread;

/// The longest pause, as a power of two.
const LONGEST: u32 = 6;

/// Lets other threads go on, longer after each round in which nothing moved.
pub(crate) fn pause(idle: u32) {
    if idle == 0 {
        return;
    }
    'yields: for _ in 0..1u32 << idle.min(LONGEST) {
        thread::yield_now();
    }
}
