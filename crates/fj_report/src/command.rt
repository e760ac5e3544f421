// The commands that read the words behind the first.
ghost use Rattle.std.specs.Prelude.{◌≡◌, IfOk, false};
ghost use Rattle.clap.specs.Words.{app_of, rule_of};
ghost use Rattle.fj_report.specs.Words.{command_named, option_named, flag_named, workers_option, run_command, alone_command, check_command, gen_command, poll_command};

use clap::{Arg, ArgAction, Command};
use std::alloc::{AllocError, Global};

/// A command that is given the words behind its own, and has no flag for help.
fn command_named<'a>(alloc: Global, name: &'a str) -> Command<'a>
    ensures { app_of result ≡ command_named name.now }
{
    Command::new(alloc, name)
        .no_binary_name(true)
        .disable_help_flag(true)
}

/// An option by its long name.
fn option_named<'a>(alloc: Global, name: &'a str) -> Arg<'a>
    ensures rule { rule_of result ≡ option_named name.now }
    ensures local { result.global ≡ false }
{
    Arg::new(alloc, name).long(name)
}

/// A flag by its long name.
fn flag_named<'a>(alloc: Global, name: &'a str) -> Arg<'a>
    ensures rule { rule_of result ≡ flag_named name.now }
    ensures local { result.global ≡ false }
{
    Arg::new(alloc, name).long(name).action(ArgAction::SetTrue)
}

/// How many workers there are: four where the words say nothing.
fn workers_option<'a>(alloc: Global) -> Arg<'a>
    ensures rule { rule_of result ≡ workers_option }
    ensures local { result.global ≡ false }
{
    Arg::new(alloc, "workers")
        .long("workers")
        .default_value("4")
}

pub fn run_command<'a>(alloc: Global) -> Result<Command<'a>, AllocError>
    ensures { IfOk result (λ command. app_of command ≡ run_command) }
{
    command_named(alloc, "run")
        .arg(workers_option(alloc))?
        .arg(flag_named(alloc, "trace"))
}

pub fn alone_command<'a>(alloc: Global) -> Result<Command<'a>, AllocError>
    ensures { IfOk result (λ command. app_of command ≡ alone_command) }
{
    command_named(alloc, "alone").arg(flag_named(alloc, "trace"))
}

pub fn check_command<'a>(alloc: Global) -> Command<'a>
    ensures { app_of result ≡ check_command }
{
    command_named(alloc, "check")
}

pub fn gen_command<'a>(alloc: Global) -> Result<Command<'a>, AllocError>
    ensures { IfOk result (λ command. app_of command ≡ gen_command) }
{
    command_named(alloc, "gen")
        .arg(option_named(alloc, "seed"))?
        .arg(option_named(alloc, "count"))?
        .arg(flag_named(alloc, "text"))
}

pub fn poll_command<'a>(alloc: Global) -> Result<Command<'a>, AllocError>
    ensures { IfOk result (λ command. app_of command ≡ poll_command) }
{
    command_named(alloc, "poll").arg(workers_option(alloc))
}
