//! What a person is told of a member.
use crate::names::{name_at, name_in};
use crate::report::{Level, Report};
use group_config::MemberSettings;
use member_links::{LinkEnd, LinkEvent};
use std::alloc::{AllocError, Global};
use std::io;

/// Tells what became of a link.
pub(crate) fn tell_event<W: Report>(
    alloc: Global,
    report: &W,
    settings: &MemberSettings,
    group: u32,
    event: LinkEvent,
) {
    let text = text_of_event(alloc, settings, group, event);
    tell(report, level_of_event(event), text);
}

/// Tells why a member has to stop.
pub(crate) fn tell_end<W: Report>(
    alloc: Global,
    report: &W,
    settings: &MemberSettings,
    group: u32,
    end: LinkEnd,
) {
    tell(
        report,
        Level::Warning,
        text_of_end(alloc, settings, group, end),
    );
}

/// Tells that nothing can be had at an address.
pub(crate) fn tell_address<W: Report>(alloc: Global, report: &W, address: &str, error: &io::Error) {
    let text = format!(in alloc; "nothing can be accepted at {address}: {error}");
    tell(report, Level::Warning, text);
}

/// Tells that a member serves its clients.
pub(crate) fn tell_serving<W: Report>(alloc: Global, report: &W, name: &str, address: &str) {
    let text = format!(in alloc; "{name} serves at {address}");
    tell(report, Level::Info, text);
}

/// Tells that a member can't show what it was told, and lets its clients go.
pub(crate) fn tell_patience<W: Report>(alloc: Global, report: &W, seconds: u32) {
    let text = format!(in alloc;
        "too few members answer, for {seconds} seconds: clients are let go"
    );
    tell(report, Level::Warning, text);
}

/// Tells that enough members answer again.
pub(crate) fn tell_recovery<W: Report>(report: &W) {
    report.line(
        Level::Notice,
        "enough members answer again: clients are served",
    );
}

/// Tells that calls are refused that may change an item.
pub(crate) fn tell_closed<W: Report>(report: &W) {
    report.line(
        Level::Notice,
        "closed, by a word at its control address: changes are refused",
    );
}

/// Tells that they are taken again.
pub(crate) fn tell_open<W: Report>(report: &W) {
    report.line(
        Level::Notice,
        "open, by a word at its control address: changes are taken",
    );
}

/// Tells that the group's items are in another.
pub(crate) fn tell_moved<W: Report>(report: &W) {
    report.line(
        Level::Notice,
        "moved, by a word at its control address: clients are let go",
    );
}

/// Tells that the member at an index was said to be dead.
pub(crate) fn tell_condemned<W: Report>(
    alloc: Global,
    report: &W,
    settings: &MemberSettings,
    x: u32,
) {
    let name = name_at(settings, x);
    let text = format!(in alloc; "{name} is dead, by a word at its control address");
    tell(report, Level::Notice, text);
}

/// Tells that the death of the member at an index is taken.
pub(crate) fn tell_taken<W: Report>(alloc: Global, report: &W, settings: &MemberSettings, x: u32) {
    let name = name_at(settings, x);
    let text = if settings.groups > 1 {
        format!(in alloc; "all groups go on without {name}")
    } else {
        format!(in alloc; "the group goes on without {name}")
    };
    tell(report, Level::Notice, text);
}

/// Tells that there was no space for the values of so many more calls.
pub(crate) fn tell_no_space<W: Report>(alloc: Global, report: &W, more: u64) {
    let text = format!(in alloc; "no space: {more} more calls were refused for want of a free run");
    tell(report, Level::Warning, text);
}

/// What the member is called that has the process at an index of a group, with the group where there are several.
fn called(
    alloc: Global,
    settings: &MemberSettings,
    group: u32,
    x: u32,
) -> Result<String, AllocError> {
    let name = name_in(settings, group, x);
    if settings.groups > 1 {
        format!(in alloc; "{name} of group {group}")
    } else {
        String::from_str(alloc, name)
    }
}

fn tell<W: Report>(report: &W, level: Level, line: Result<String, AllocError>) {
    if let Ok(line) = line {
        report.line(level, line.as_str());
    }
}

fn level_of_event(event: LinkEvent) -> Level {
    match event {
        LinkEvent::Up(_) => Level::Info,
        _ => Level::Warning,
    }
}

fn text_of_event(
    alloc: Global,
    settings: &MemberSettings,
    group: u32,
    event: LinkEvent,
) -> Result<String, AllocError> {
    match event {
        LinkEvent::Up(x) => {
            let name = called(alloc, settings, group, x)?;
            format!(in alloc; "linked to {name}")
        }
        LinkEvent::Broken(x) => {
            let name = called(alloc, settings, group, x)?;
            format!(in alloc; "the link to {name} broke")
        }
        LinkEvent::Again(x) => {
            let name = called(alloc, settings, group, x)?;
            format!(in alloc;
                "a program came as {name}, which was linked before: it is no member any more, or this one isn't"
            )
        }
        LinkEvent::Stranger => "a program came that is no member of this group".to_string(alloc),
    }
}

fn text_of_end(
    alloc: Global,
    settings: &MemberSettings,
    group: u32,
    end: LinkEnd,
) -> Result<String, AllocError> {
    match end {
        LinkEnd::Misfit(x) => {
            let name = called(alloc, settings, group, x)?;
            format!(in alloc; "{name} said what can't be: this member stops")
        }
        LinkEnd::BadFrame(x) => {
            let name = called(alloc, settings, group, x)?;
            format!(in alloc; "what came of {name} is no frame with its sum: this member stops")
        }
        LinkEnd::NoSpelling(x) => {
            let name = called(alloc, settings, group, x)?;
            format!(in alloc; "a frame for {name} can't be written: this member stops")
        }
        LinkEnd::Refused(x) => {
            let name = called(alloc, settings, group, x)?;
            format!(in alloc;
                "{name} was linked to this member's name before: a program that is started anew is no member"
            )
        }
    }
}
