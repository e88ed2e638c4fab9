ghost use Rattle.std.specs.Prelude.{◌≡◌, ◌≢◌, true, [], Some, None, map, option_map, codes, IfOk, OnOk, IsErrOf};
ghost use Rattle.std.specs.String.{string_bytes};
ghost use Rattle.clap.specs.Words.{app_of, fault_of, first_of, found_of, is_simple_and_free, matches_of, rows_of};
ghost use Rattle.command_line.specs.Parsers.{most_32, most_64};
ghost use Rattle.command_line.specs.Words.{bare_of, command_of_words, named_of, number_argument, number_at, session_command, session_with};

use crate::command::Command;
use crate::fault::WordsFault;
use crate::name::Name;
use crate::{fault, parsers};
use clap::ArgMatches;
use std::alloc::{AllocError, Global};

/// The command that the words say. Memory may run out; else the words are wrong exactly where they say none.
pub fn read_words(alloc: Global, words: &[String]) -> Result<Command, WordsFault>
    ensures ok { IfOk result (λ command. command_of_words (map string_bytes words.now) ≡ Some command) }
    ensures bad_words { IsErrOf result WordsFault.BadWords → command_of_words (map string_bytes words.now) ≡ None }
{
    let Some((word, rest)) = words.split_first() else {
        return Err(WordsFault::BadWords);
    };
    match word.as_str() {
        "play" => read_bare(alloc, "play", Command::Play, rest),
        "play_groups" => read_bare(alloc, "play_groups", Command::PlayGroups, rest),
        "play_regroup" => read_bare(alloc, "play_regroup", Command::PlayRegroup, rest),
        "verify" => read_bare(alloc, "verify", Command::Verify, rest),
        "session" => read_session(alloc, rest),
        "serve" => read_bare(alloc, "serve", Command::Serve, rest),
        "member" => read_member(alloc, rest),
        "watch" => read_watch(alloc, rest),
        "carry" => read_bare(alloc, "carry", Command::Carry, rest),
        "make" => read_make(alloc, rest),
        "trial" => read_trial(alloc, rest),
        "frames" => read_bare(alloc, "frames", Command::Frames, rest),
        _ => Err(WordsFault::BadWords),
    }
}

/// Reads the words of a command that has no argument.
fn read_bare(
    alloc: Global,
    name: &str,
    command: Command,
    words: &[String],
) -> Result<Command, WordsFault>
    ensures ok { IfOk result (λ said. bare_of name.now command (map string_bytes words.now) ≡ Some said) }
    ensures bad_words { IsErrOf result WordsFault.BadWords
        → bare_of name.now command (map string_bytes words.now) ≡ None }
{
    parse(parsers::bare(alloc, name), words)?;
    Ok(command)
}

fn read_session(alloc: Global, words: &[String]) -> Result<Command, WordsFault>
    ensures ok { IfOk result (λ command. session_command (map string_bytes words.now) ≡ Some command) }
    ensures bad_words { IsErrOf result WordsFault.BadWords → session_command (map string_bytes words.now) ≡ None }
{
    let matches = parse(parsers::session(alloc)?, words)?;
    let k = small_number(&matches, "k");
    let m = small_number(&matches, "m");
    let blocks = small_number(&matches, "blocks");
    let block = small_number(&matches, "block");
    session(k, m, blocks, block).ok_or(WordsFault::BadWords)
}

fn session(
    k: Option<u32>,
    m: Option<u32>,
    blocks: Option<u32>,
    block: Option<u32>,
) -> Option<Command>
    ensures { result ≡ session_with k m blocks block }
{
    Some(Command::Session {
        k: k?,
        m: m?,
        blocks: blocks?,
        block: block?,
    })
}

fn read_member(alloc: Global, words: &[String]) -> Result<Command, WordsFault>
    ensures ok { IfOk result (λ command. option_map Command.Member
        (named_of (codes "member") (map string_bytes words.now)) ≡ Some command) }
    ensures bad_words { IsErrOf result WordsFault.BadWords
        → named_of (codes "member") (map string_bytes words.now) ≡ None }
{
    let name = read_name(alloc, "member", words)?;
    Ok(Command::Member { name })
}

fn read_watch(alloc: Global, words: &[String]) -> Result<Command, WordsFault>
    ensures ok { IfOk result (λ command. option_map Command.Watch
        (named_of (codes "watch") (map string_bytes words.now)) ≡ Some command) }
    ensures bad_words { IsErrOf result WordsFault.BadWords
        → named_of (codes "watch") (map string_bytes words.now) ≡ None }
{
    let name = read_name(alloc, "watch", words)?;
    Ok(Command::Watch { name })
}

/// Reads the words of a command that may have a name.
fn read_name(alloc: Global, name: &str, words: &[String]) -> Result<Option<Name>, WordsFault>
    ensures ok { IfOk result (λ found. named_of name.now (map string_bytes words.now) ≡ Some found) }
    ensures bad_words { IsErrOf result WordsFault.BadWords → named_of name.now (map string_bytes words.now) ≡ None }
{
    let matches = parse(parsers::maybe_named(alloc, name)?, words)?;
    Ok(name_in(alloc, &matches)?)
}

/// The name among the arguments, if it is there.
fn name_in(alloc: Global, matches: &ArgMatches) -> Result<Option<Name>, AllocError>
    ensures { IfOk result (λ name. name ≡ first_of (codes "name") (rows_of (found_of matches.now))) }
{
    match matches.get_str("name") {
        Some(text) => Ok(Some(Name::new(alloc, text)?)),
        None => Ok(None),
    }
}

fn read_make(alloc: Global, words: &[String]) -> Result<Command, WordsFault>
    ensures ok { IfOk result (λ command. option_map Command.Make
        (number_argument (codes "make") (map string_bytes words.now)) ≡ Some command) }
    ensures bad_words { IsErrOf result WordsFault.BadWords
        → number_argument (codes "make") (map string_bytes words.now) ≡ None }
{
    let number = read_number(alloc, "make", words)?;
    Ok(Command::Make { number })
}

fn read_trial(alloc: Global, words: &[String]) -> Result<Command, WordsFault>
    ensures ok { IfOk result (λ command. option_map Command.Trial
        (number_argument (codes "trial") (map string_bytes words.now)) ≡ Some command) }
    ensures bad_words { IsErrOf result WordsFault.BadWords
        → number_argument (codes "trial") (map string_bytes words.now) ≡ None }
{
    let number = read_number(alloc, "trial", words)?;
    Ok(Command::Trial { number })
}

fn read_number(alloc: Global, name: &str, words: &[String]) -> Result<u64, WordsFault>
    ensures ok { IfOk result (λ number. number_argument name.now (map string_bytes words.now) ≡ Some number) }
    ensures bad_words { IsErrOf result WordsFault.BadWords → number_argument name.now (map string_bytes words.now) ≡ None }
{
    let matches = parse(parsers::one_number(alloc, name)?, words)?;
    number(&matches, "number").ok_or(WordsFault::BadWords)
}

// What a command of `clap` makes of the words.
fn parse<'a>(command: clap::Command<'a>, words: &'a [String]) -> Result<ArgMatches<'a>, WordsFault>
    requires { is_simple_and_free (app_of command) ≡ true }
    ensures rows { IfOk result (λ matches. rows_of (found_of matches)
        ≡ matches_of (app_of command.entry) (map string_bytes words.entry.now)) }
    ensures taken { OnOk result (fault_of (app_of command.entry) (map string_bytes words.entry.now) ≡ []) }
    ensures bad_words { IsErrOf result WordsFault.BadWords
        → fault_of (app_of command.entry) (map string_bytes words.entry.now) ≢ [] }
{
    match command.try_get_matches_from(words) {
        Ok(matches) => Ok(matches),
        Err(error) => Err(fault::fault_of(&error)),
    }
}

fn small_number(matches: &ArgMatches, id: &str) -> Option<u32>
    ensures { result ≡ number_at most_32 (rows_of (found_of matches.now)) id.now }
{
    matches.get_one::<u32>(id)
}

fn number(matches: &ArgMatches, id: &str) -> Option<u64>
    ensures { result ≡ number_at most_64 (rows_of (found_of matches.now)) id.now }
{
    matches.get_one::<u64>(id)
}
