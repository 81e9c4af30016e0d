ghost use Rattle.std.specs.Prelude.{◌≡◌, ◌++◌, IfOk, OnOk, map, option_map};
ghost use Rattle.clap.specs.Words.{first_of, found_of, rows_of, subcommand_rows_of};
ghost use Rattle.program_calls.specs.Forms.{form_of, workers_of, task_of};
ghost use Rattle.program_calls.specs.inside.Printed.{matched_words, option_words, printed, printed_load, printed_payments};

use crate::task::{DEFAULT_WORKERS, Task};
use clap::ArgMatches;
use fx_amounts::Memory;
use fx_text::number;
use net_settle::Form;
use std::alloc::Global;

/// The words of a command as they were matched.
#[derive(Clone, Copy, Debug)]
pub(crate) enum Matched<'a> {
    Run {
        workers: Option<&'a str>,
    },
    Serial,
    Check,
    Load {
        seed: &'a str,
        banks: &'a str,
        pairs: &'a str,
        commands: &'a str,
        workers: Option<&'a str>,
    },
    Clients,
    Payments {
        form: &'a str,
    },
    Watch,
}

impl<'a> Matched<'a> {
    /// What was matched; `None` where it was no command, or one without its numbers.
    pub(crate) fn of(matches: &ArgMatches<'a>) -> Option<Matched<'a>>
        ensures { option_map matched_words result ≡ printed (subcommand_rows_of matches.now) }
    {
        let (name, inner) = command_in(matches)?;
        match name {
            "run" => Some(Matched::Run {
                workers: value_of(inner, "workers"),
            }),
            "serial" => Some(Matched::Serial),
            "check" => Some(Matched::Check),
            "load" => load_in(inner),
            "clients" => Some(Matched::Clients),
            "payments" => payments_in(inner),
            "watch" => Some(Matched::Watch),
            _ => None,
        }
    }

    /// The words again, the options last.
    pub(crate) fn words(&self, alloc: Global) -> Result<Vec<&'a str>, Memory>
        ensures { IfOk result (λ words. map (λ word. word.now) words.items ≡ matched_words self.now) }
    {
        let mut words = Vec::new(alloc);
        match self {
            Matched::Run { workers } => {
                words.push("run")?;
                push_option(&mut words, *workers)?;
            }
            Matched::Serial => words.push("serial")?,
            Matched::Check => words.push("check")?,
            Matched::Load {
                seed,
                banks,
                pairs,
                commands,
                workers,
            } => {
                words.push("load")?;
                words.push(*seed)?;
                words.push(*banks)?;
                words.push(*pairs)?;
                words.push(*commands)?;
                push_option(&mut words, *workers)?;
            }
            Matched::Clients => words.push("clients")?,
            Matched::Payments { form } => {
                words.push("payments")?;
                words.push(*form)?;
            }
            Matched::Watch => words.push("watch")?,
        }
        Ok(words)
    }

    /// The task that they ask for; `None` where a number is not in its form.
    pub(crate) fn task(&self) -> Option<Task>
        ensures { result ≡ task_of (matched_words self.now) }
    {
        match self {
            Matched::Run { workers } => Some(Task::Run {
                workers: workers_from(*workers)?,
            }),
            Matched::Serial => Some(Task::Serial),
            Matched::Check => Some(Task::Check),
            Matched::Load {
                seed,
                banks,
                pairs,
                commands,
                workers,
            } => Some(Task::Load {
                seed: number(seed.as_bytes(), 0, u64::MAX)?,
                banks: number(banks.as_bytes(), 2, 64)? as u8,
                pairs: number(pairs.as_bytes(), 1, 32)? as u8,
                commands: number(commands.as_bytes(), 1, 20_000)? as u32,
                workers: workers_from(*workers)?,
            }),
            Matched::Clients => Some(Task::Clients),
            Matched::Payments { form } => Some(Task::Payments {
                form: form_from(form)?,
            }),
            Matched::Watch => Some(Task::Watch),
        }
    }
}

/// The name of the command that was matched, and what was matched behind it.
fn command_in<'m, 'a>(matches: &'m ArgMatches<'a>) -> Option<(&'a str, &'m ArgMatches<'a>)>
    ensures { option_map (λ command. (command.0.now, rows_of (found_of command.1.now))) result ≡ subcommand_rows_of matches.now }
{
    matches.subcommand()
}

/// The value of an argument.
fn value_of<'a>(matches: &ArgMatches<'a>, name: &str) -> Option<&'a str>
    ensures { option_map (λ text. text.now) result ≡ first_of name.now (rows_of (found_of matches.now)) }
{
    matches.get_str(name)
}

/// `load` with what was matched behind it; `None` where a number is missing.
fn load_in<'a>(matches: &ArgMatches<'a>) -> Option<Matched<'a>>
    ensures { option_map matched_words result ≡ printed_load (rows_of (found_of matches.now)) }
{
    Some(Matched::Load {
        seed: value_of(matches, "SEED")?,
        banks: value_of(matches, "BANKS")?,
        pairs: value_of(matches, "PAIRS")?,
        commands: value_of(matches, "COMMANDS")?,
        workers: value_of(matches, "workers"),
    })
}

/// `payments` with what was matched behind it; `None` where the form is missing.
fn payments_in<'a>(matches: &ArgMatches<'a>) -> Option<Matched<'a>>
    ensures { option_map matched_words result ≡ printed_payments (rows_of (found_of matches.now)) }
{
    Some(Matched::Payments {
        form: value_of(matches, "FORM")?,
    })
}

fn push_option<'a>(words: &mut Vec<&'a str>, workers: Option<&'a str>) -> Result<(), Memory>
    ensures { OnOk result (map (λ word. word.now) words.new.items ≡ map (λ word. word.now) words.old.items ++ option_words workers.entry) }
{
    if let Some(count) = workers {
        words.push("--workers")?;
        words.push(count)?;
    }
    Ok(())
}

/// The number of workers that was said, or the one that stands where none was.
fn workers_from(said: Option<&str>) -> Option<u32>
    ensures { result ≡ workers_of (option_words said.entry) }
{
    match said {
        None => Some(DEFAULT_WORKERS),
        Some(text) => Some(number(text.as_bytes(), 1, 64)? as u32),
    }
}

/// A form of payments, by its word.
fn form_from(said: &str) -> Option<Form>
    ensures { result ≡ form_of said.now }
{
    match said {
        "bilateral" => Some(Form::Bilateral),
        "net" => Some(Form::Net),
        _ => None,
    }
}
