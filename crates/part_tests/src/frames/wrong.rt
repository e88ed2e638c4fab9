// Frames that are no spelling.
use crate::fixtures::same;
use crate::frames::streams::{STREAM, WRONG, fed};
use wire_codec::{DecodeFault, Decoder};

#[test]
fn wrong_frames_are_refused_and_again(rt: HostRuntime) {
    let bad = Err(DecodeFault::BadFrame { at: 0 });
    'rows: for wrong in WRONG {
        let mut decoder = Decoder::new(rt.alloc());
        let given = (fed(&mut decoder, wrong), fed(&mut decoder, &STREAM));
        same(&rt, given, (bad, bad));
    }
}

#[test]
fn messages_come_before_the_fault_behind_them(rt: HostRuntime) {
    let bad = Err(DecodeFault::BadFrame { at: 15 });
    'rows: for wrong in WRONG {
        let mut bytes = [0; 60];
        bytes[..15].copy_from_slice(&STREAM[75..90]);
        let len = wrong.len().min(45);
        bytes[15..15 + len].copy_from_slice(&wrong[..len]);
        let mut decoder = Decoder::new(rt.alloc());
        let whole = fed(&mut decoder, &bytes[..15 + len]);
        let later = (fed(&mut decoder, &wrong[len..]), fed(&mut decoder, b""));
        same(&rt, (whole, later), (Ok(1), (bad, bad)));
    }
}

#[test]
fn a_long_frame_waits(rt: HostRuntime) {
    let mut decoder = Decoder::new(rt.alloc());
    let given = fed(&mut decoder, &[8, 0, 0, 0, 1, 2, 3]);
    same(&rt, (given, decoder.at_start()), (Ok(0), false));
}
