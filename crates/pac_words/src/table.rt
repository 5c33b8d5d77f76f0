ghost use Rattle.std.specs.Prelude.{◌≡◌, IfOk, false};
ghost use Rattle.clap.specs.Words.{app_of, rule_of, shape_of};
ghost use Rattle.clap.specs.declared.builder.command.Command.TheViews.{out-Command as fields_of};
ghost use Rattle.pac_words.specs.Table.{commands, described, exec, file, flag, generate, list, option, printing, run, sample, scripted, table};

use clap::{Arg, ArgAction, Command};
use std::alloc::{AllocError, Global};

/// A word that has to be given: a file, or a number.
fn file<'a>(alloc: Global, id: &'a str) -> Arg<'a>
    ensures rule { rule_of result ≡ file id.entry.now }
    ensures local { result.global ≡ false }
{
    Arg::new(alloc, id).required(true)
}

/// An option with one value.
fn option<'a>(alloc: Global, id: &'a str) -> Arg<'a>
    ensures rule { rule_of result ≡ option id.entry.now }
    ensures local { result.global ≡ false }
{
    Arg::new(alloc, id).long(id)
}

/// An option without a value.
fn flag<'a>(alloc: Global, id: &'a str) -> Arg<'a>
    ensures rule { rule_of result ≡ flag id.entry.now }
    ensures local { result.global ≡ false }
{
    Arg::new(alloc, id).long(id).action(ArgAction::SetTrue)
}

/// A command over a description.
fn described<'a>(alloc: Global, name: &'a str) -> Result<Command<'a>, AllocError>
    ensures { IfOk result (λ command. (app_of command ≡ described name.entry.now) × ((fields_of command).has_globals ≡ false)) }
{
    Command::new(alloc, name)
        .arg(file(alloc, "svd"))?
        .arg(option(alloc, "patch"))?
        .arg(flag(alloc, "strict"))
}

fn list<'a>(alloc: Global) -> Result<Command<'a>, AllocError>
    ensures { IfOk result (λ command. (shape_of command ≡ list) × ((fields_of command).has_globals ≡ false)) }
{
    described(alloc, "list")
}

fn generate<'a>(alloc: Global) -> Result<Command<'a>, AllocError>
    ensures { IfOk result (λ command. (shape_of command ≡ generate) × ((fields_of command).has_globals ≡ false)) }
{
    described(alloc, "generate")
}

fn exec<'a>(alloc: Global) -> Result<Command<'a>, AllocError>
    ensures { IfOk result (λ command. (shape_of command ≡ exec) × ((fields_of command).has_globals ≡ false)) }
{
    Command::new(alloc, "exec")
        .arg(file(alloc, "crate"))?
        .arg(file(alloc, "script"))?
        .arg(option(alloc, "bus"))
}

fn run<'a>(alloc: Global) -> Result<Command<'a>, AllocError>
    ensures { IfOk result (λ command. (shape_of command ≡ run) × ((fields_of command).has_globals ≡ false)) }
{
    described(alloc, "run")?
        .arg(file(alloc, "script"))?
        .arg(option(alloc, "bus"))
}

fn sample<'a>(alloc: Global) -> Result<Command<'a>, AllocError>
    ensures { IfOk result (λ command. (shape_of command ≡ sample) × ((fields_of command).has_globals ≡ false)) }
{
    Command::new(alloc, "sample")
        .arg(file(alloc, "number"))?
        .arg(file(alloc, "count"))
}

/// The commands that print a description.
fn printing<'a>(alloc: Global) -> Result<Command<'a>, AllocError>
    ensures { IfOk result (λ command. app_of command ≡ commands printing) }
{
    Command::new(alloc, "pac")
        .no_binary_name(true)
        .disable_help_flag(true)
        .disable_help_subcommand(true)
        .subcommand_required(true)
        .subcommand(list(alloc)?)?
        .subcommand(generate(alloc)?)
}

/// These and the commands that run a script.
fn scripted<'a>(alloc: Global) -> Result<Command<'a>, AllocError>
    ensures { IfOk result (λ command. app_of command ≡ commands scripted) }
{
    printing(alloc)?
        .subcommand(exec(alloc)?)?
        .subcommand(run(alloc)?)
}

/// The commands that are built. One has to be chosen, and no word asks for help.
pub(crate) fn table<'a>(alloc: Global) -> Result<Command<'a>, AllocError>
    ensures { IfOk result (λ command. app_of command ≡ table) }
{
    scripted(alloc)?.subcommand(sample(alloc)?)
}
