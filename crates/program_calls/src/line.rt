ghost use Rattle.std.specs.Prelude.{◌≡◌, IfOk, false};
ghost use Rattle.clap.specs.Words.{app_of, rule_of};
ghost use Rattle.clap.specs.declared.builder.command.Command.TheViews.{out-Command};
ghost use Rattle.program_calls.specs.inside.Tool.{tool, run_app, load_app, payments_app, workers_rule, word_rule};

use clap::{Arg, Command};
use fx_amounts::Memory;
use std::alloc::Global;

/// The command line of the program.
pub(crate) fn command_line<'a>(alloc: Global) -> Result<Command<'a>, Memory>
    ensures { IfOk result (λ command. app_of command ≡ tool) }
{
    let tool = Command::new(alloc, "fx_cli")
        .no_binary_name(true)
        .disable_help_flag(true)
        .disable_help_subcommand(true)
        .subcommand(run_command(alloc)?)?
        .subcommand(Command::new(alloc, "serial"))?
        .subcommand(Command::new(alloc, "check"))?
        .subcommand(load_command(alloc)?)?
        .subcommand(Command::new(alloc, "clients"))?
        .subcommand(payments_command(alloc)?)?
        .subcommand(Command::new(alloc, "watch"))?;
    Ok(tool)
}

fn run_command<'a>(alloc: Global) -> Result<Command<'a>, Memory>
    ensures app { IfOk result (λ command. app_of command ≡ run_app) }
    ensures local { IfOk result (λ command. (out-Command command).has_globals ≡ false) }
{
    Ok(Command::new(alloc, "run").arg(workers(alloc))?)
}

fn load_command<'a>(alloc: Global) -> Result<Command<'a>, Memory>
    ensures app { IfOk result (λ command. app_of command ≡ load_app) }
    ensures local { IfOk result (λ command. (out-Command command).has_globals ≡ false) }
{
    let load = Command::new(alloc, "load")
        .arg(word(alloc, "SEED"))?
        .arg(word(alloc, "BANKS"))?
        .arg(word(alloc, "PAIRS"))?
        .arg(word(alloc, "COMMANDS"))?
        .arg(workers(alloc))?;
    Ok(load)
}

fn payments_command<'a>(alloc: Global) -> Result<Command<'a>, Memory>
    ensures app { IfOk result (λ command. app_of command ≡ payments_app) }
    ensures local { IfOk result (λ command. (out-Command command).has_globals ≡ false) }
{
    Ok(Command::new(alloc, "payments").arg(word(alloc, "FORM"))?)
}

fn workers<'a>(alloc: Global) -> Arg<'a>
    ensures rule { rule_of result ≡ workers_rule }
    ensures local { result.global ≡ false }
{
    Arg::new(alloc, "workers").long("workers")
}

/// A word that has to stand at its place.
fn word<'a>(alloc: Global, name: &'a str) -> Arg<'a>
    ensures rule { rule_of result ≡ word_rule name.entry.now }
    ensures local { result.global ≡ false }
{
    Arg::new(alloc, name).required(true)
}
