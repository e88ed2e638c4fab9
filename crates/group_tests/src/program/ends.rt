// What a person is told on standard error of each end.
use crate::program::runs::owned;
use group_program::{Status, help_at};
use group_types::{ConfigKey, Field};
use std::test::Fail;

#[test]
fn each_end_but_done_is_explained(rt: HostRuntime) -> Result<(), Fail> {
    for (status, begin) in [
        (Status::BadWords, "cocytus_main play < SCRIPT\n    plays "),
        (
            Status::BadLine(7),
            "line 7 of the script is none of these, ",
        ),
        (Status::ReadFault, "standard input could not be read\n"),
        (Status::WriteFault, "standard output could not be written\n"),
        (Status::BadConfig(ConfigKey::K), "k is the number of data "),
        (Status::AcceptFault, "no connection can be accepted "),
        (Status::Want, "there is not enough memory\n"),
        (Status::Cut, "the input ended inside a request or a frame\n"),
        (
            Status::LineTooLong,
            "a line of a request has at most 32768 bytes\n",
        ),
        (
            Status::Worn,
            "a connection or a stream has at most 2^62 bytes\n",
        ),
        (
            Status::BadFrame(7),
            "the frame at byte 7 of the input is none of a message\n",
        ),
        (Status::Refused(7), "line 7 of the transcript is none "),
    ] {
        assert!(rt;
            help_at(rt.alloc(), &[], status, &[])?.starts_with(begin),
            "{begin}"
        );
    }
    assert!(rt; help_at(rt.alloc(), &[], Status::Done, &[])?.is_empty());
    assert!(rt; !help_at(rt.alloc(), &[], Status::BadShape(Field::Block), &[])?.is_empty());
    Ok(())
}

#[test]
fn help_is_told_of_a_command(rt: HostRuntime) -> Result<(), Fail> {
    for (word, begin) in [
        (
            "member",
            "cocytus_main member [<name>] < SETTINGS\n    runs ",
        ),
        ("frames", "cocytus_main frames < STREAM\n    tells "),
        ("--help", "cocytus_main play < SCRIPT\n    plays "),
        ("--version", "cocytus_main 1, "),
    ] {
        let words = owned(rt.alloc(), &[word, "--help"])?;
        let told = help_at(rt.alloc(), &words, Status::BadWords, &[])?;
        assert!(rt; told.starts_with(begin), "{word}");
    }
    Ok(())
}

#[test]
fn a_limit_is_told_of_its_command(rt: HostRuntime) -> Result<(), Fail> {
    for (word, begin) in [
        ("play", "a script has at most 16777216 bytes\n"),
        ("serve", "settings have at most 65536 bytes\n"),
        ("member", "settings have at most 65536 bytes\n"),
        (
            "verify",
            "a script and its transcript have at most 67108864 bytes\n",
        ),
    ] {
        let words = owned(rt.alloc(), &[word])?;
        let told = help_at(rt.alloc(), &words, Status::TooLong, &[])?;
        assert_eq!(rt; told.as_str(), begin);
    }
    Ok(())
}

#[test]
fn the_lines_of_a_command_are_told(rt: HostRuntime) -> Result<(), Fail> {
    for (word, line) in [
        ("play", "\ngroup <k> <m> <blocks> <block> "),
        ("play_groups", "\ngroups <g> <n> <k> <m> <blocks> <block> "),
        ("play_regroup", "\nregroup <m> <blocks> <block>\n"),
    ] {
        let words = owned(rt.alloc(), &[word])?;
        let told = help_at(rt.alloc(), &words, Status::BadLine(1), &[])?;
        assert!(rt; told.contains(line), "{word}");
    }
    Ok(())
}

#[test]
fn a_refused_line_is_quoted(rt: HostRuntime) -> Result<(), Fail> {
    for (script, number, end) in [
        (
            "group 2 1 64 1024\nask 0 d2 get k\n",
            2,
            "line 2 is: ask 0 d2 get k\nits word 3, d2, can't stand there\n",
        ),
        (
            "group 2 1 64 1024\n\nask 0 d1 set k 0 x\n",
            3,
            "line 3 is: ask 0 d1 set k 0 x\nits word 7, x, can't stand there\n",
        ),
        ("group 2 1 64 1024\ndrain 5\n", 2, "line 2 is: drain 5\n"),
        (
            "groups 2 3 2 1 64 1024\ng1 flush p1\n",
            2,
            "line 2 is: g1 flush p1\nits word 3, p1, can't stand there\n",
        ),
        (
            "group 2 1 64 1024\nlook d0 0 1\n",
            2,
            "line 2 is: look d0 0 1\nits word 1, look, can't stand there\n",
        ),
    ] {
        let told = help_at(rt.alloc(), &[], Status::BadLine(number), script.as_bytes())?;
        assert!(rt; told.ends_with(end), "{end}");
    }
    Ok(())
}
