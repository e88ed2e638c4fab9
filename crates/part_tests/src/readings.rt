// Lines of a transcript, and lines that are none.
use crate::fixtures::same;
use transcript_text::Kind;
use transcript_text::answer::read_said;
use transcript_text::name::{named, tells};
use transcript_text::place::read_place;
use transcript_text::reply::is_reply;
use transcript_text::shown::shown;

const REPLIES: [(&'static str, bool); 14] = [
    ("miss", true),
    ("Stored", false),
    ("not_stored ", false),
    ("number 0", true),
    ("number 00", false),
    ("number 18446744073709551615", true),
    ("number 18446744073709551616", false),
    ("value 0 1 -", true),
    ("value 4294967295 1 00ff", true),
    ("value 4294967296 1 -", false),
    ("value 0 1 0", false),
    ("value 0 1 0F", false),
    ("value 0 1 ", false),
    ("value 0 1 - -", false),
];

#[test]
fn replies_are_told_from_other_words(rt: HostRuntime) {
    for (text, wanted) in REPLIES {
        same(&rt, is_reply(text.as_bytes()), wanted);
    }
}

const ANSWERS: [(Kind, &'static str, bool); 19] = [
    (Kind::Store, "ticket 1", true),
    (Kind::Store, "ticket 01", false),
    (Kind::Alter, "ticket 1", true),
    (Kind::Read, "ticket 1", false),
    (Kind::Store, "no_space", true),
    (Kind::Alter, "no_space", false),
    (Kind::Read, "no_space", false),
    (Kind::Collect, "ticket 1", false),
    (Kind::Read, "retry pending 0 3", true),
    (Kind::Store, "retry pending 4294967296 3", false),
    (Kind::Read, "retry block 7", true),
    (Kind::Trace, "stale 4", true),
    (Kind::Store, "stale 4", false),
    (Kind::Collect, "stranger", true),
    (Kind::Fail, "lost", false),
    (Kind::Deliver, "idle", true),
    (Kind::Read, "reply miss", true),
    (Kind::Flush, "reply miss", false),
    (Kind::Deliver, "done ", false),
];

#[test]
fn an_event_has_the_answers_of_its_kind(rt: HostRuntime) {
    for (kind, line, wanted) in ANSWERS {
        same(&rt, read_said(kind, line.as_bytes()).is_some(), wanted);
    }
}

const NAMES: [(&'static str, bool); 8] = [
    ("= 0.0 get a miss", true),
    ("= 255.18446744073709551615 get a miss", true),
    ("= 1.1 @5 get a miss", true),
    ("= 256.0 get a miss", false),
    ("= 0.00 get a miss", false),
    ("=0.0 get a miss", false),
    ("= 0.0", false),
    ("= 0.0 get a stored", false),
];

fn tells_miss(line: &[u8]) -> bool {
    match named(line) {
        Some((_, rest)) => tells(rest, b"miss"),
        None => false,
    }
}

#[test]
fn a_log_line_tells_its_name_and_its_reply(rt: HostRuntime) {
    for (line, wanted) in NAMES {
        same(&rt, tells_miss(line.as_bytes()), wanted);
    }
}

const PLACES: [(&'static str, bool); 5] = [
    ("place 0 1 0 4", true),
    ("place 0 1 0", false),
    ("place 0 01 0 4", false),
    ("place 0 1 0 4 ", false),
    ("place  1 0 4", false),
];

#[test]
fn a_place_has_four_numbers(rt: HostRuntime) {
    for (line, wanted) in PLACES {
        same(&rt, read_place(line.as_bytes()).is_some(), wanted);
    }
}

const STAMPS: [(&'static str, bool); 6] = [
    ("shown 3,0 00ff", true),
    ("shown 3 00ff", false),
    ("shown 3,0,1 00ff", false),
    ("shown 3,00 00ff", false),
    ("shown ,3 00ff", false),
    ("shown 3,0", false),
];

#[test]
fn a_stamp_has_as_many_numbers_as_are_wanted(rt: HostRuntime) {
    for (line, wanted) in STAMPS {
        let mut stamp = [0; 2];
        same(&rt, shown(line.as_bytes(), &mut stamp).is_some(), wanted);
    }
}
