use crate::commands::usage_of;
use crate::refused_line::refused_line;
use group_types::{BadShape, ConfigKey};
use scenario_play::Status;
use scenario_play::status::Count;
use std::alloc::{AllocError, Global};

const LINES: &str = "is none of these, with words one space apart, ended by a line feed alone:
group <k> <m> <blocks> <block>                 the first line, and no other
ask <caller> <process> <op>                    op: get <key>, delete <key>, touch <key> <exptime>,
                                               set|add|replace <key> <flags> <value> [<exptime>],
                                               cas <key> <flags> <cas> <value> [<exptime>],
                                               append|prepend <key> <value>, incr|decr <key> <n>
collect <caller> <call> <process>
trace <caller> <call> <partition> <process>
deliver <from> <to>
fail <process> <keep>|all
flush <process>
show <process> <at> <len>
places
time <n>
drain
stop
A process is d<n> or p<n>; a value is -, hexadecimal digits, or *<len>*<hh>.
";

const ERA_LINES: &str = "is none of these, with words one space apart, ended by a line feed alone:
group <k> <m> <blocks> <block>                 the first line, and no other
ask <caller> <process> <op>                    op: get <key>, delete <key>, touch <key> <exptime>,
                                               set|add|replace <key> <flags> <value> [<exptime>],
                                               cas <key> <flags> <cas> <value> [<exptime>],
                                               append|prepend <key> <value>, incr|decr <key> <n>
collect <caller> <call> <process>
trace <caller> <call> <partition> <process>
deliver <from> <to>
fail <process> <keep>|all
flush <process>
show <process> <at> <len>
places
time <n>
drain
regroup <m> <blocks> <block>
stop
A process is d<n> or p<n>; a value is -, hexadecimal digits, or *<len>*<hh>.
";

const GROUPS_LINES: &str =
    "is none of these, with words one space apart, ended by a line feed alone:
groups <g> <n> <k> <m> <blocks> <block>        the first line, and no other
g<j> <line>                                    of group j, as in a script of one group: ask, collect, deliver,
                                               flush, trace or show
fail_node <node> <keep>|all
time <n>
drain
stop
";

const LONGEST_SETTINGS: &str = "settings have at most 65536 bytes\n";

/// What a person is told beside the last line of a command with these words: what was expected there, or what went
/// wrong. The script is what was read, as far as it was kept.
pub fn help_at(
    alloc: Global,
    words: &[String],
    status: Status,
    script: &[u8],
) -> Result<String, AllocError> {
    match words.first() {
        _ if matches!(status, Status::BadWords) => usage_of(alloc, words),
        Some(word) if word.as_str() == "member" || word.as_str() == "watch" => {
            help_of_member(alloc, status)
        }
        Some(word) if word.as_str() == "carry" => help_of_carry(alloc, status),
        _ => help_of_others(alloc, words, status, script),
    }
}

/// What is told of the end of a carry, of which the machine told why.
fn help_of_carry(alloc: Global, status: Status) -> Result<String, AllocError> {
    match status {
        Status::Cut | Status::BadConfig(_) => "".to_string(alloc),
        Status::TooLong => LONGEST_SETTINGS.to_string(alloc),
        other => help_text(other).to_string(alloc),
    }
}

/// What is told where no member was run, or of the end of its run. At which key its settings are refused is told by the
/// machine.
fn help_of_member(alloc: Global, status: Status) -> Result<String, AllocError> {
    match status {
        Status::Refused(own) => format!(in alloc;
            "a program was linked as member {own} before: one that is started anew is no member\n"
        ),
        Status::BadFrame(peer) => format!(in alloc;
            "what member {peer} said is no frame, has a wrong sum, or can't be\n"
        ),
        Status::BadConfig(ConfigKey::Address) => {
            "a member listens at the three addresses that its settings have for it\n".to_string(
                alloc,
            )
        }
        Status::BadConfig(_) => "".to_string(alloc),
        Status::Cut => "the system failed at what all connections need\n".to_string(alloc),
        Status::TooLong => LONGEST_SETTINGS.to_string(alloc),
        other => help_text(other).to_string(alloc),
    }
}

fn help_of_others(
    alloc: Global,
    words: &[String],
    status: Status,
    script: &[u8],
) -> Result<String, AllocError> {
    match status {
        Status::BadLine(n) => format!(in alloc;
            "line {n} of the script {}{}{}",
            lines(words),
            behind_lines(words),
            refused_line(alloc, script, n)?
        ),
        Status::BadFrame(at) => {
            format!(in alloc; "the frame at byte {at} of the input is none of a message\n")
        }
        Status::Refused(n) => format!(in alloc;
            "line {n} of the transcript is none that the script can have there\n"
        ),
        Status::BadShape(field) => format!(in alloc; "{}\n", BadShape { field }),
        Status::BadConfig(key) => format!(in alloc; "{}\n", key.allowed()),
        Status::TooLong => too_long(words).to_string(alloc),
        other => help_text(other).to_string(alloc),
    }
}

/// The lines of a command's scripts.
fn lines(words: &[String]) -> &'static str {
    match words.first() {
        Some(word) if word.as_str() == "play_groups" => GROUPS_LINES,
        Some(word) if word.as_str() == "play_regroup" => ERA_LINES,
        _ => LINES,
    }
}

/// What stands behind the script of a command.
fn behind_lines(words: &[String]) -> &'static str {
    match words.first() {
        Some(word) if word.as_str() == "verify" =>
            "Behind the script stand a line ==== and the transcript.\n",
        _ => "",
    }
}

/// Which limit the input of a command has.
fn too_long(words: &[String]) -> &'static str {
    match words.first() {
        Some(word) if word.as_str() == "serve" => LONGEST_SETTINGS,
        Some(word) if word.as_str() == "verify" =>
            "a script and its transcript have at most 67108864 bytes\n",
        _ => "a script has at most 16777216 bytes\n",
    }
}

fn help_text(status: Status) -> &'static str {
    match status {
        Status::BadCount(Count::Groups) => "there are 1 to 16 groups\n",
        Status::BadCount(Count::Nodes) => {
            "there are at least as many nodes as a group has processes, and at most 64\n"
        }
        Status::ReadFault => "standard input could not be read\n",
        Status::WriteFault => "standard output could not be written\n",
        Status::AcceptFault => "no connection can be accepted at the address of the settings\n",
        Status::Want => "there is not enough memory\n",
        Status::Cut => "the input ended inside a request or a frame\n",
        Status::LineTooLong => "a line of a request has at most 32768 bytes\n",
        Status::Worn => "a connection or a stream has at most 2^62 bytes\n",
        _ => "",
    }
}
