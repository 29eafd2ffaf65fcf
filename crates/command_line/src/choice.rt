//! What the words of a command line choose.
ghost use Rattle.std.specs.Prelude.{◌≡◌, ◌≤◌, IfOk};
ghost use Rattle.clap.specs.Words.{kind_of};
ghost use Rattle.command_line.specs.Choice.{IsChoiceOf, IsLoad, IsSoak, is_named};
ghost use Rattle.command_line.specs.LoadSize.{IsLoadSize, IsRate};
ghost use Rattle.command_line.specs.SoakSize.{IsSoakSize};
ghost use Rattle.command_line.specs.Status.{status_after};

use crate::commands::{command_of, load_command, soak_command};
use crate::load_size::{
    LoadSize, MAX_LIMIT, MAX_PIECES, MAX_RATE, MAX_ROWS, MAX_SERVERS, MAX_WORKERS,
};
use crate::number::count_in;
use crate::soak_size::{MAX_UPDATES, SoakSize};
use clap::error::ErrorKind;
use clap::{ArgMatches, Command, Error};
use std::alloc::{AllocError, Global};

/// What the program is to do. A file is that of the script; without one it is on standard input.
#[derive(Clone, Copy, PartialEq, Eq)]
pub enum Chosen<'a> {
    /// Run a script.
    Run {
        /// The file of the script.
        file: Option<&'a str>,
        /// Whether it ends at the first line that is bad or refused.
        stops: bool,
    },
    /// Answer each line as it comes.
    Prompt {
        /// The file of the lines.
        file: Option<&'a str>,
        /// The file of the checkpoint at which the session opens.
        at: Option<&'a str>,
        /// Whether it answers in JSON.
        is_json: bool,
    },
    /// Let threads write rows while an index is added.
    Load {
        /// How many servers, rows, pieces and workers.
        size: LoadSize,
        /// How many rows a second are to be inserted; as many as the servers can if it is left out.
        rate: Option<u32>,
        /// Whether standard output is to have lines of JSON while it runs.
        is_sampled: bool,
        /// Whether standard error is to have the time and the rate.
        is_timed: bool,
    },
    /// Let threads update rows for long.
    Soak {
        /// How many updates, rows and servers.
        size: SoakSize,
    },
    /// Let threads write rows while an operator carries three changes to their end.
    Rollout,
}

// The number of an option, or else the name of that option.
fn number_of(matches: &ArgMatches<'_>, name: &'static str, most: u32) -> Result<u32, &'static str>
    ensures { IfOk result (λ n. (1 ≤ n) × (n ≤ most)) }
{
    match matches.get_str(name) {
        Some(text) => count_in(text, most).ok_or(name),
        None => Err(name),
    }
}

// The size that a `load` asks for, or else the name of the first option that is no number in its
// range. That clap hands on none but texts in the ranges above is said by no contract of a
// subcommand; and it takes a sign before a number.
fn load_size(matches: &ArgMatches<'_>) -> Result<LoadSize, &'static str>
    ensures { IfOk result IsLoadSize }
{
    Ok(LoadSize {
        servers: number_of(matches, "servers", MAX_SERVERS)?,
        rows: number_of(matches, "rows", MAX_ROWS)?,
        pieces: number_of(matches, "pieces", MAX_PIECES)?,
        workers: number_of(matches, "workers", MAX_WORKERS)?,
        limit: number_of(matches, "limit", MAX_LIMIT)?,
    })
}

// The rate that a `load` asks for, if it does, or else the name of the option.
fn load_rate(matches: &ArgMatches<'_>) -> Result<Option<u32>, &'static str>
    ensures { IfOk result IsRate }
{
    match matches.get_str("rate") {
        Some(_) => Ok(Some(number_of(matches, "rate", MAX_RATE)?)),
        None => Ok(None),
    }
}

// The size and the rate that a `load` asks for, or else the name of the first option that is no
// number in its range.
fn load_numbers(matches: &ArgMatches<'_>) -> Result<(LoadSize, Option<u32>), &'static str>
    ensures { IfOk result (λ r. IsLoadSize r.0 × IsRate r.1) }
{
    Ok((load_size(matches)?, load_rate(matches)?))
}

// The same of a `soak`.
fn soak_size(matches: &ArgMatches<'_>) -> Result<SoakSize, &'static str>
    ensures { IfOk result IsSoakSize }
{
    Ok(SoakSize {
        updates: number_of(matches, "updates", MAX_UPDATES)?,
        rows: number_of(matches, "rows", MAX_ROWS)?,
        servers: number_of(matches, "servers", MAX_SERVERS)?,
    })
}

// The refusal of an option's text that is no number in digits alone.
fn refusal(
    alloc: Global,
    mut subcommand: Command<'_>,
    matches: &ArgMatches<'_>,
    name: &str,
) -> Result<Error, AllocError> {
    let text = matches.get_str(name).unwrap_or("");
    let message = format!(in alloc;
        "invalid value '{text}' for '--{name} <N>': a number is written in digits alone"
    )?;
    subcommand.error(ErrorKind::ValueValidation, message.as_str())
}

// Whether the word after the program's own name is this one.
fn names(words: &[String], name: &str) -> bool
    ensures { result ≡ is_named words.now name.now }
{
    match words {
        [_, word, ..] => word.as_str() == name,
        _ => false,
    }
}

// The file that a subcommand names by this word, if it does.
fn file_of<'a>(matches: &ArgMatches<'a>, name: &str, word: &str) -> Option<&'a str> {
    match matches.subcommand_matches(name) {
        Some(matches) => matches.get_str(word),
        None => None,
    }
}

// Whether an option of a subcommand that has no value is there.
fn has_flag(matches: &ArgMatches<'_>, name: &str, option: &str) -> bool {
    match matches.subcommand_matches(name) {
        Some(matches) => matches.get_flag(option),
        None => false,
    }
}

// What `load` chooses.
fn load_choice<'a>(alloc: Global, matches: &ArgMatches<'a>) -> Result<Chosen<'a>, Error>
    ensures { IfOk result IsLoad }
{
    match load_numbers(matches) {
        Ok((size, rate)) => Ok(Chosen::Load {
            size,
            rate,
            is_sampled: matches.get_flag("samples"),
            is_timed: matches.get_flag("time"),
        }),
        Err(name) => {
            let load = load_command(alloc)?.bin_name("shell load")?;
            Err(refusal(alloc, load, matches, name)?)
        }
    }
}

// What `soak` chooses.
fn soak_choice<'a>(alloc: Global, matches: &ArgMatches<'a>) -> Result<Chosen<'a>, Error>
    ensures { IfOk result IsSoak }
{
    match soak_size(matches) {
        Ok(size) => Ok(Chosen::Soak { size }),
        Err(name) => {
            let soak = soak_command(alloc)?.bin_name("shell soak")?;
            Err(refusal(alloc, soak, matches, name)?)
        }
    }
}

// What words choose that clap took.
fn choice_of<'a>(
    alloc: Global,
    command: &mut Command<'a>,
    matches: &ArgMatches<'a>,
    words: &[String],
) -> Result<Chosen<'a>, Error>
    ensures { IfOk result (IsChoiceOf words.now) }
{
    if names(words, "run") {
        let stops = has_flag(matches, "run", "stop");
        let file = file_of(matches, "run", "FILE");
        return Ok(Chosen::Run { file, stops });
    }
    if names(words, "prompt") {
        let file = file_of(matches, "prompt", "FILE");
        let at = file_of(matches, "prompt", "at");
        let is_json = has_flag(matches, "prompt", "json");
        return Ok(Chosen::Prompt { file, at, is_json });
    }
    if names(words, "rollout") {
        return Ok(Chosen::Rollout);
    }
    if let Some(soak) = matches.subcommand_matches("soak")
        && names(words, "soak")
    {
        return soak_choice(alloc, soak);
    }
    match matches.subcommand_matches("load") {
        Some(load) if names(words, "load") => load_choice(alloc, load),
        _ => Err(command.error(
            ErrorKind::InvalidSubcommand,
            "none of 'run', 'prompt', 'load', 'soak' and 'rollout'",
        )?),
    }
}

/// What the words of a command line choose, the program's own name first. An `Err` is what to
/// print: the help that was asked for, or why the words are refused. What clap makes of words is
/// said by no contract, and shown by tests: hence the words themselves are asked for what they
/// choose.
pub fn options<'a>(alloc: Global, words: &'a [String]) -> Result<Chosen<'a>, Error>
    ensures { IfOk result (IsChoiceOf words.now) }
{
    let mut command = command_of(alloc)?;
    let matches = command.try_get_matches_from_mut(words)?;
    choice_of(alloc, &mut command, &matches, words)
}

/// The exit status after a command line that chooses nothing: 0 if help was asked for, 2 if
/// the words are refused, 5 when out of memory.
pub fn status_of(error: &Error) -> u8
    ensures { result ≡ status_after (kind_of error.now) }
{
    match error.kind() {
        ErrorKind::OutOfMemory => 5,
        ErrorKind::DisplayHelp | ErrorKind::DisplayVersion => 0,
        _ => 2,
    }
}
