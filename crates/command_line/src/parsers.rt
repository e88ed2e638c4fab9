// The commands of `clap` that read the words behind the first.
ghost use Rattle.std.specs.Prelude.{◌≡◌, false, IfOk};
ghost use Rattle.clap.specs.Words.{app_of, rule_of};
ghost use Rattle.command_line.specs.Parsers.{bare, name_rule, named_app, number_app, number_rule, session_app};

use clap::builder::ValueParser;
use clap::{Arg, ArgAction, Command};
use std::alloc::{AllocError, Global};

/// A command that has no argument.
pub(crate) fn bare<'a>(alloc: Global, name: &'a str) -> Command<'a>
    ensures { app_of result ≡ bare name.now }
{
    Command::new(alloc, name).no_binary_name(true)
}

/// A command that has one number.
pub(crate) fn one_number<'a>(alloc: Global, name: &'a str) -> Result<Command<'a>, AllocError>
    ensures { IfOk result (λ command. app_of command ≡ number_app name.now) }
{
    bare(alloc, name).arg(number(alloc, "number", u64::MAX))
}

/// A command that has the numbers of a shape.
pub(crate) fn session<'a>(alloc: Global) -> Result<Command<'a>, AllocError>
    ensures { IfOk result (λ command. app_of command ≡ session_app) }
{
    let most = u64::from(u32::MAX);
    bare(alloc, "session")
        .arg(number(alloc, "k", most))?
        .arg(number(alloc, "m", most))?
        .arg(number(alloc, "blocks", most))?
        .arg(number(alloc, "block", most))
}

/// A command that may have a name.
pub(crate) fn maybe_named<'a>(alloc: Global, name: &'a str) -> Result<Command<'a>, AllocError>
    ensures { IfOk result (λ command. app_of command ≡ named_app name.now) }
{
    bare(alloc, name).arg(any_name(alloc))
}

// An argument that may be left out: any text.
fn any_name<'a>(alloc: Global) -> Arg<'a>
    ensures rule { rule_of result ≡ name_rule }
    ensures local { result.global ≡ false }
{
    Arg::new(alloc, "name").action(ArgAction::Set)
}

// A required argument that is a number.
fn number<'a>(alloc: Global, id: &'a str, most: u64) -> Arg<'a>
    ensures rule { rule_of result ≡ number_rule id.now most }
    ensures local { result.global ≡ false }
{
    Arg::new(alloc, id)
        .required(true)
        .action(ArgAction::Set)
        .value_parser(ValueParser::unsigned(0, most))
}
