// A stream of all kinds, cut at each byte and written again.
use crate::fixtures::same;
use crate::frames::streams::{FRAMES, STREAM, fed};
use group_message::Message;
use std::alloc::Global;
use std::process::Abort;
use wire_codec::{Decoder, encode, encode_around, has_frame, kind_of, spelled_length, value_of};

// How many frames end within the first bytes.
fn whole_within(bytes: usize) -> usize {
    let mut count = 0usize;
    'frames: for (_, _, end) in FRAMES {
        if end <= bytes {
            count = count.saturating_add(1);
        }
    }
    count
}

#[test]
fn each_prefix_gives_its_whole_frames(rt: HostRuntime) {
    'cuts: for cut in 0..=STREAM.len() {
        let (front, rest) = STREAM.split_at(cut);
        let mut decoder = Decoder::new(rt.alloc());
        let given = (fed(&mut decoder, front), fed(&mut decoder, rest));
        let whole = whole_within(cut);
        same(&rt, given, (Ok(whole), Ok(10 - whole.min(10))));
        same(&rt, decoder.at_start(), true);
    }
}

#[test]
fn a_byte_at_a_time(rt: HostRuntime) {
    let mut decoder = Decoder::new(rt.alloc());
    let mut given = 0usize;
    'bytes: for byte in STREAM {
        match fed(&mut decoder, &[byte]) {
            Ok(count) => given = given.saturating_add(count),
            Err(_) => break 'bytes,
        }
    }
    same(&rt, given, 10);
}

#[test]
fn messages_are_written_as_they_were_read(rt: HostRuntime) {
    let mut decoder = Decoder::new(rt.alloc());
    assert!(rt; decoder.takes(STREAM.len()));
    let list = decoder.feed(&STREAM).expect(&rt, "a stream of messages");
    let mut begin = 0;
    'messages: for (message, (kind, length, end)) in list.messages().iter().zip(FRAMES) {
        assert!(rt; has_frame(message) && begin <= end && end <= STREAM.len());
        same(
            &rt,
            (kind_of(message), spelled_length(message)),
            (kind, length),
        );
        is_spelled(&rt, rt.alloc(), message, &STREAM[begin..end]);
        is_spelled_around(&rt, rt.alloc(), message, &STREAM[begin..end]);
        begin = end;
    }
}

fn is_spelled(rt: &impl Abort, alloc: Global, message: &Message, bytes: &[u8]) {
    assert!(rt; has_frame(message));
    let frame = encode(alloc, message).expect(rt, "a frame");
    same(rt, frame.bytes(), bytes);
}

// What stands before and behind the value.
fn is_spelled_around(rt: &impl Abort, alloc: Global, message: &Message, bytes: &[u8]) {
    assert!(rt; has_frame(message));
    let around = encode_around(alloc, message).expect(rt, "a frame around its value");
    let rest = bytes
        .strip_prefix(around.before.bytes())
        .expect(rt, "what stands before");
    let rest = rest.strip_prefix(value_of(message)).expect(rt, "the value");
    same(rt, around.behind.bytes(), rest);
}
