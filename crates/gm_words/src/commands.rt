//! The commands, as `clap` reads them.

ghost use Rattle.std.specs.Prelude.{◌≡◌, false, codes, IfOk};
ghost use Rattle.clap.specs.Words.{app_of, rule_of};
ghost use Rattle.gm_words.specs.Commands.{bare_app, command_app, dealt_app, flag, optioned_app, positional, turning_app, valued};

use crate::verbs::Verb;
use clap::{Arg, ArgAction, Command};
use std::alloc::{AllocError, Global};

// The positionals, any number of them.
fn positionals<'a>(alloc: Global) -> Arg<'a>
    ensures rule { rule_of result ≡ positional }
    ensures own { result.global ≡ false }
{
    Arg::new(alloc, "WORD").action(ArgAction::Append)
}

// An option with a value.
fn valued_option<'a>(alloc: Global, name: &'a str) -> Arg<'a>
    ensures rule { rule_of result ≡ valued name.now }
    ensures own { result.global ≡ false }
{
    Arg::new(alloc, name).long(name)
}

// An option without a value.
fn flag_option<'a>(alloc: Global, name: &'a str) -> Arg<'a>
    ensures rule { rule_of result ≡ flag name.now }
    ensures own { result.global ≡ false }
{
    Arg::new(alloc, name).long(name).action(ArgAction::SetTrue)
}

// A command without an option, not even one for help.
fn bare_command<'a>(alloc: Global) -> Command<'a>
    ensures { app_of result ≡ bare_app (codes "gm") }
{
    Command::new(alloc, "gm").disable_help_flag(true)
}

// A command that deals nodes out.
fn dealt_command<'a>(alloc: Global) -> Result<Command<'a>, AllocError>
    ensures { IfOk result (λ c. app_of c ≡ dealt_app (codes "gm")) }
{
    bare_command(alloc)
        .arg(valued_option(alloc, "workers"))?
        .arg(valued_option(alloc, "partition"))
}

// A command that also reads a graph and runs turns over it.
fn turning_command<'a>(alloc: Global) -> Result<Command<'a>, AllocError>
    ensures { IfOk result (λ c. app_of c ≡ turning_app (codes "gm")) }
{
    dealt_command(alloc)?
        .arg(valued_option(alloc, "turns"))?
        .arg(valued_option(alloc, "format"))?
        .arg(flag_option(alloc, "observe"))
}

// A command with all its options.
fn optioned_command<'a>(alloc: Global, verb: Verb) -> Result<Command<'a>, AllocError>
    ensures { IfOk result (λ c. app_of c ≡ optioned_app (codes "gm") verb) }
{
    match verb {
        Verb::Run => turning_command(alloc)?.arg(flag_option(alloc, "image")),
        Verb::Exec => turning_command(alloc),
        Verb::Demo => dealt_command(alloc),
        Verb::Check | Verb::Compile => Ok(bare_command(alloc)),
    }
}

/// The command of a first word, with its options and any number of positionals.
pub fn command_of<'a>(alloc: Global, verb: Verb) -> Result<Command<'a>, AllocError>
    ensures { IfOk result (λ c. app_of c ≡ command_app (codes "gm") verb) }
{
    optioned_command(alloc, verb)?.arg(positionals(alloc))
}
