//! The program: it runs the script on standard input, a load or a soak, as the command line chooses.
#![tactic(auto)]

mod checkpoints;
mod reports;

use crate::checkpoints::{Folder, checkpoint_in};
use crate::reports::Reports;
use clap::Error;
use command_line::{Chosen, NOT_UTF8, options, status_of};
use load::{LoadOptions, run_load_shown};
use prompt::{Form, Streams, converse, prompt_status};
use rollout_example::rollout_report;
use script::{Watch, run_watched, watched_status};
use soak::run_soak;
use std::fs::File;
use std::io;
use std::io::{BufRead, BufReader, ErrorKind, IsTerminal, Read};
use std::process::ExitCode;
use std::time::Instant;
use world::Checkpoint;

/// The exit status of a command line that is refused.
const REFUSED: u8 = 2;

/// The exit status if a file cannot be read.
const UNREAD: u8 = 3;

/// The exit status if a line could not be written.
const UNWRITTEN: u8 = 4;

/// The exit status when memory ran out.
const NO_MEMORY: u8 = 5;

/// The exit status if a call of a rollout was refused.
const REFUSED_CALL: u8 = 6;

/// Runs the script of a reader, and reports what is wrong with its lines on standard error. What
/// the process's own reader and writer do is said by no contract: it is shown by the stored run.
fn run_lines<R: Read>(rt: &HostRuntime, input: &mut R, stops: bool) -> u8 {
    let mut output = io::writer(rt);
    let errors = rt.stderr();
    let mut watch = Watch {
        reports: Reports { errors },
        stops,
    };
    let outcome = run_watched(rt.alloc(), input, &mut output, &mut watch);
    if let Err(fault) = &outcome {
        let _ = eprintln!(rt; "fault: {fault}");
    }
    watched_status(&outcome)
}

/// Runs the script of a file, or that on standard input.
fn run_input(rt: &HostRuntime, file: Option<&str>, stops: bool) -> u8 {
    match file {
        None => run_lines(rt, &mut rt.stdin(), stops),
        Some(file) => match opened(rt, file) {
            Ok(mut reader) => run_lines(rt, &mut reader, stops),
            Err(status) => status,
        },
    }
}

/// Answers the lines of a reader as they come, in this form. If there is a checkpoint, the session opens
/// there.
fn answer_lines<R: BufRead + Drop>(
    rt: &HostRuntime,
    reader: R,
    checkpoint: Option<Checkpoint>,
    form: Form,
) -> u8 {
    let mut streams = Streams {
        reader,
        writer: io::writer(rt),
        is_flushed: false,
    };
    let mut files = Folder { rt };
    let outcome = converse(rt.alloc(), &mut streams, &mut files, checkpoint, form);
    if let Err(fault) = &outcome {
        let _ = eprintln!(rt; "fault: {fault}");
    }
    prompt_status(&outcome)
}

/// A file that is no folder.
fn open_file(rt: &HostRuntime, file: &str) -> io::Result<File> {
    let opened = File::open(rt, file)?;
    if opened.metadata()?.is_dir() {
        return Err(io::Error::new(ErrorKind::InvalidInput, "it is a folder"));
    }
    Ok(opened)
}

/// A reader of a file; or else the exit status, after standard error has why.
fn opened(rt: &HostRuntime, file: &str) -> Result<BufReader<File>, u8> {
    match open_file(rt, file) {
        Ok(opened) => BufReader::new(rt.alloc(), opened).map_err(|_| NO_MEMORY),
        Err(fault) => {
            let _ = eprintln!(rt; "fault: {file}: {fault}");
            Err(UNREAD)
        }
    }
}

/// The form of the answers on standard input: with a prompt if it is a terminal, and no JSON is asked for.
fn terminal_form(rt: &HostRuntime, form: Form) -> Form {
    let is_terminal = rt.stdin().is_terminal() && rt.stdout().is_terminal();
    if is_terminal && form == Form::Plain {
        Form::Shown
    } else {
        form
    }
}

/// Answers the lines of a file, or those of standard input, with a prompt if it is a terminal.
fn answer_input(
    rt: &HostRuntime,
    file: Option<&str>,
    checkpoint: Option<Checkpoint>,
    form: Form,
) -> u8 {
    match file {
        None => answer_lines(rt, rt.reader(), checkpoint, terminal_form(rt, form)),
        Some(file) => match opened(rt, file) {
            Ok(reader) => answer_lines(rt, reader, checkpoint, form),
            Err(status) => status,
        },
    }
}

/// Answers lines from the checkpoint in a file on, if one is named.
fn answer_from(rt: &HostRuntime, file: Option<&str>, at: Option<&str>, is_json: bool) -> u8 {
    let form = if is_json { Form::Json } else { Form::Plain };
    match at {
        None => answer_input(rt, file, None, form),
        Some(at) => match checkpoint_in(rt, at) {
            Ok(checkpoint) => answer_input(rt, file, Some(checkpoint), form),
            Err(status) => status,
        },
    }
}

/// Reports on standard error why a load or a soak of this status was not reported, or why the command line
/// was not read.
fn report_fault(rt: &HostRuntime, status: u8) {
    let fault = match status {
        4 => "write",
        NO_MEMORY => "memory",
        _ => return,
    };
    let _ = eprintln!(rt; "fault: {fault}");
}

/// The words of the command line, the program's own name first. If they cannot be had, standard
/// error has why, and the `Err` is the exit status.
fn words_of(rt: &HostRuntime) -> Result<Vec<String>, u8> {
    match std::env::args(rt) {
        Ok(words) => {
            if let Ok(words) = words.collect(rt.alloc()) {
                return Ok(words);
            }
        }
        Err(fault) => {
            if matches!(fault.kind(), ErrorKind::InvalidData) {
                let _ = eprint!(rt; "{NOT_UTF8}");
                return Err(REFUSED);
            }
        }
    }
    report_fault(rt, NO_MEMORY);
    Err(NO_MEMORY)
}

/// Prints why the words choose nothing, or the help that they ask for, and answers the exit status.
fn print_choice(rt: &HostRuntime, error: &Error) -> u8 {
    let status = status_of(error);
    if status == NO_MEMORY {
        report_fault(rt, status);
    } else {
        let _ = error.print(rt);
    }
    status
}

/// Reports on standard error how long so many rows took, and how many that is a second.
fn report_rate(rt: &HostRuntime, rows: u32, started: &Instant) {
    let Ok(took) = started.elapsed(rt) else {
        return;
    };
    let millis = took
        .as_secs()
        .saturating_mul(1_000)
        .saturating_add(u64::from(took.subsec_millis()));
    let rate = u64::from(rows).saturating_mul(1_000) / millis.max(1);
    let _ = eprintln!(rt; "{rows} rows in {millis} ms: {rate} rows a second");
}

/// Ends a load: its fault is reported on standard error, and if it is timed, its rate.
fn end_load(rt: &HostRuntime, status: u8, rows: u32, started: Option<Instant>) -> u8 {
    report_fault(rt, status);
    if let Some(started) = started {
        report_rate(rt, rows, &started);
    }
    status
}

/// How a load goes; with a bar if standard error is a terminal.
fn load_options(
    rt: &HostRuntime,
    rate: Option<u32>,
    is_sampled: bool,
    is_timed: bool,
) -> LoadOptions {
    LoadOptions {
        rate,
        is_sampled,
        is_timed,
        is_shown: rt.stderr().is_terminal(),
    }
}

/// The moment by the clock, if it is asked for and can be read.
fn started_at(rt: &HostRuntime, is_timed: bool) -> Option<Instant> {
    if is_timed {
        Instant::now(rt).ok()
    } else {
        None
    }
}

/// Prints what a rollout of three changes did.
fn print_rollout(rt: &HostRuntime, text: Option<String>) -> u8 {
    let Some(text) = text else {
        return REFUSED_CALL;
    };
    match print!(rt; "{text}") {
        Ok(()) => 0,
        Err(_) => UNWRITTEN,
    }
}

fn main(rt: HostRuntime) -> ExitCode {
    let alloc = rt.alloc();
    let words = match words_of(&rt) {
        Ok(words) => words,
        Err(status) => return ExitCode::from(status),
    };
    let status = match options(alloc, words.as_slice()) {
        Ok(Chosen::Run { file, stops }) => run_input(&rt, file, stops),
        Ok(Chosen::Prompt { file, at, is_json }) => answer_from(&rt, file, at, is_json),
        Ok(
            Chosen::Load {
                size,
                rate,
                is_sampled,
                is_timed,
            },
        ) => {
            let how = load_options(&rt, rate, is_sampled, is_timed);
            let started = started_at(&rt, is_timed);
            let status = run_load_shown(&rt, alloc, size, how, &mut io::writer(&rt));
            end_load(&rt, status, size.rows, started)
        }
        Ok(Chosen::Soak { size }) => {
            let status = run_soak(&rt, alloc, size, &mut io::writer(&rt));
            report_fault(&rt, status);
            status
        }
        Ok(Chosen::Rollout) => {
            let text = rollout_report(&rt, alloc);
            print_rollout(&rt, text)
        }
        Err(error) => print_choice(&rt, &error),
    };
    ExitCode::from(status)
}
