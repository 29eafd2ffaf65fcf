//! The subcommands and their options, as clap has them.

use crate::help;
use crate::load_size::{MAX_LIMIT, MAX_PIECES, MAX_RATE, MAX_ROWS, MAX_SERVERS, MAX_WORKERS};
use crate::soak_size::MAX_UPDATES;
use clap::{Arg, ArgAction, Command, value_parser};
use std::alloc::{AllocError, Global};

fn file_arg<'a>(alloc: Global) -> Arg<'a> {
    Arg::new(alloc, "FILE").help(help::FILE)
}

// An option without a value.
fn flag<'a>(alloc: Global, name: &'a str, short: char, about: &'a str) -> Arg<'a> {
    Arg::new(alloc, name)
        .short(short)
        .long(name)
        .action(ArgAction::SetTrue)
        .help(about)
}

// The option of a file.
fn file_option<'a>(alloc: Global, name: &'a str, about: &'a str) -> Arg<'a> {
    Arg::new(alloc, name)
        .long(name)
        .value_name("FILE")
        .help(about)
}

fn run_command<'a>(alloc: Global) -> Result<Command<'a>, AllocError> {
    Command::new(alloc, "run")
        .about(help::ABOUT_RUN)
        .after_help(help::SCRIPTS)
        .arg(flag(alloc, "stop", 's', help::STOP))?
        .arg(file_arg(alloc))
}

fn prompt_command<'a>(alloc: Global) -> Result<Command<'a>, AllocError> {
    Command::new(alloc, "prompt")
        .about(help::ABOUT_PROMPT)
        .after_help(help::PROMPTS)
        .arg(file_option(alloc, "at", help::AT))?
        .arg(flag(alloc, "json", 'j', help::JSON))?
        .arg(file_arg(alloc))
}

// The option of a number from 1 to `most`.
fn number<'a>(
    alloc: Global,
    name: &'a str,
    short: char,
    most: u32,
    default: &'a str,
    about: &'a str,
) -> Arg<'a> {
    Arg::new(alloc, name)
        .short(short)
        .long(name)
        .value_name("N")
        .value_parser(value_parser!(u32).range(1..=i64::from(most)))
        .default_value(default)
        .help(about)
}

// An option that is a number: long and short name, the greatest number, the default, and the help.
type NumberOption = (&'static str, char, u32, &'static str, &'static str);

// Those of `load`.
const LOAD_NUMBERS: [NumberOption; 5] = [
    ("servers", 's', MAX_SERVERS, "4", help::SERVERS),
    ("rows", 'r', MAX_ROWS, "1000", help::ROWS),
    ("pieces", 'p', MAX_PIECES, "6", help::PIECES),
    ("workers", 'w', MAX_WORKERS, "3", help::WORKERS),
    ("limit", 'l', MAX_LIMIT, "50", help::LIMIT),
];

// Those of `soak`.
const SOAK_NUMBERS: [NumberOption; 3] = [
    ("updates", 'u', MAX_UPDATES, "10000000", help::UPDATES),
    ("rows", 'r', MAX_ROWS, "1000", help::SOAKED_ROWS),
    ("servers", 's', MAX_SERVERS, "4", help::UPDATERS),
];

// The command with these options.
fn with_numbers<'a>(
    alloc: Global,
    command: Command<'a>,
    numbers: &[NumberOption],
) -> Result<Command<'a>, AllocError> {
    let mut command = command;
    for (name, short, most, default, about) in numbers {
        command = command.arg(number(alloc, name, *short, *most, default, about))?;
    }
    Ok(command)
}

// The option of a rate, which may be left out.
fn rate_option<'a>(alloc: Global) -> Arg<'a> {
    Arg::new(alloc, "rate")
        .long("rate")
        .value_name("N")
        .value_parser(value_parser!(u32).range(1..=i64::from(MAX_RATE)))
        .help(help::RATE)
}

// The option of lines of JSON.
fn samples_option<'a>(alloc: Global) -> Arg<'a> {
    Arg::new(alloc, "samples")
        .long("samples")
        .action(ArgAction::SetTrue)
        .help(help::SAMPLES)
}

/// The subcommand `load`.
pub(crate) fn load_command<'a>(alloc: Global) -> Result<Command<'a>, AllocError> {
    let load = Command::new(alloc, "load")
        .about(help::ABOUT_LOAD)
        .after_help(help::LOADS);
    with_numbers(alloc, load, &LOAD_NUMBERS)?
        .arg(rate_option(alloc))?
        .arg(samples_option(alloc))?
        .arg(flag(alloc, "time", 't', help::TIME))
}

/// The subcommand `soak`.
pub(crate) fn soak_command<'a>(alloc: Global) -> Result<Command<'a>, AllocError> {
    let soak = Command::new(alloc, "soak")
        .about(help::ABOUT_SOAK)
        .after_help(help::SOAKS);
    with_numbers(alloc, soak, &SOAK_NUMBERS)
}

fn rollout_command<'a>(alloc: Global) -> Command<'a> {
    Command::new(alloc, "rollout")
        .about(help::ABOUT_ROLLOUT)
        .after_help(help::ROLLOUTS)
}

// The subcommands.
#[derive(Clone, Copy)]
enum Task {
    Run,
    Prompt,
    Load,
    Soak,
    Rollout,
}

fn subcommand_of<'a>(alloc: Global, task: Task) -> Result<Command<'a>, AllocError> {
    match task {
        Task::Run => run_command(alloc),
        Task::Prompt => prompt_command(alloc),
        Task::Load => load_command(alloc),
        Task::Soak => soak_command(alloc),
        Task::Rollout => Ok(rollout_command(alloc)),
    }
}

/// The program with all its subcommands.
pub(crate) fn command_of<'a>(alloc: Global) -> Result<Command<'a>, AllocError> {
    let mut command = Command::new(alloc, "shell")
        .bin_name("shell")?
        .version(help::VERSION)
        .about(help::ABOUT)
        .after_help(help::STATUSES)
        .subcommand_required(true);
    for task in [
        Task::Run,
        Task::Prompt,
        Task::Load,
        Task::Soak,
        Task::Rollout,
    ] {
        let subcommand = subcommand_of(alloc, task)?;
        command = command.subcommand(subcommand)?;
    }
    Ok(command)
}
