use std::alloc::{AllocError, Global};

/// What a person is told of a command: its name, the words behind it, and what it does.
#[derive(Clone, Copy)]
struct CommandText {
    name: &'static str,
    words: &'static str,
    phrase: &'static str,
}

const COMMANDS: [CommandText; 12] = [
    CommandText {
        name: "play",
        words: " < SCRIPT",
        phrase: "plays a script of a group and writes its transcript",
    },
    CommandText {
        name: "play_groups",
        words: " < SCRIPT",
        phrase: "plays a script of several groups on nodes",
    },
    CommandText {
        name: "play_regroup",
        words: " < SCRIPT",
        phrase: "plays a script whose group is carried into fresh groups",
    },
    CommandText {
        name: "verify",
        words: " < SCRIPT_AND_TRANSCRIPT",
        phrase: "checks a transcript by its script",
    },
    CommandText {
        name: "session",
        words: " <k> <m> <blocks> <block>",
        phrase: "serves a group on standard input and output",
    },
    CommandText {
        name: "serve",
        words: " < SETTINGS",
        phrase: "serves a whole group at a port",
    },
    CommandText {
        name: "member",
        words: " [<name>] < SETTINGS",
        phrase: "runs a member of a group on machines of its own",
    },
    CommandText {
        name: "watch",
        words: " [<name>] < SETTINGS",
        phrase: "watches such a member by etcd, and tells it who is dead",
    },
    CommandText {
        name: "carry",
        words: " < SETTINGS",
        phrase: "carries the items of such a group into a fresh one",
    },
    CommandText {
        name: "make",
        words: " <n>",
        phrase: "writes a script that a number makes",
    },
    CommandText {
        name: "trial",
        words: " <n>",
        phrase: "plays that script and counts what it did",
    },
    CommandText {
        name: "frames",
        words: " < STREAM",
        phrase: "tells the messages of a stream of frames",
    },
];

const VERSION: &str = "cocytus_main 1, whose members link to those of version 1 alone\n";

/// What a person is told who said these words, which are no command: how the command that they begin with is said, or how
/// all are.
pub(crate) fn usage_of(alloc: Global, words: &[String]) -> Result<String, AllocError> {
    let first = words.first().map_or("", |word| word.as_str());
    if first == "--version" {
        return VERSION.to_string(alloc);
    }
    'commands: for command in &COMMANDS {
        if command.name == first {
            return usage(alloc, *command);
        }
    }
    usage_of_all(alloc)
}

fn usage_of_all(alloc: Global) -> Result<String, AllocError> {
    let mut text = String::new(alloc);
    'commands: for command in &COMMANDS {
        text.push_str(&usage(alloc, *command)?)?;
    }
    Ok(text)
}

fn usage(alloc: Global, command: CommandText) -> Result<String, AllocError> {
    let CommandText {
        name,
        words,
        phrase,
    } = command;
    format!(in alloc; "cocytus_main {name}{words}\n    {phrase}\n")
}
