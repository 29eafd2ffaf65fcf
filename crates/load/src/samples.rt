//! The lines of JSON that a load writes while it runs.

use crate::fault::LoadFault;
use crate::index_step::{INDEX_STEPS, IndexStep};
use crate::meter::{Meter, SECOND};
use std::alloc::{AllocError, Global};
use std::io::Write;
use std::sync::Wait;
use std::thread;
use std::time::{Clock, Duration};

/// How many nanoseconds there are from one sample to the next.
const TICK: u64 = 100_000_000;

/// How many nanoseconds there are from one look for a step to the next.
const LOOK: u64 = 2_000_000;

/// How far the lines have come.
#[derive(Drop)]
struct Sampler {
    // how many steps have their lines
    steps: usize,
    // how many writes are in a sample
    rows: usize,
    // how long the writes of this sample took
    times: Vec<u64>,
}

/// So many nanoseconds, as seconds with six places.
pub(crate) fn seconds(alloc: Global, nanos: u64) -> Result<String, AllocError> {
    let (whole, part) = (nanos / SECOND, nanos % SECOND / 1_000);
    format!(in alloc; "{whole}.{part:06}")
}

/// Writes a line, so that whoever reads it has it at once.
pub(crate) fn write_line<W: Write>(writer: &mut W, line: &str) -> Result<(), LoadFault> {
    if writer.write_all(line.as_bytes()).is_err() || writer.flush().is_err() {
        return Err(LoadFault::Unwritten);
    }
    Ok(())
}

// The line of a version, in which the index has this state.
fn version_line(
    alloc: Global,
    at: u64,
    version: u64,
    moment: u64,
    state: &str,
) -> Result<String, AllocError> {
    let at = seconds(alloc, at)?;
    format!(in alloc;
        "{{\"kind\":\"version\",\"at\":{at},\"version\":{version},\"moment\":{moment},\"state\":\"{state}\"}}\n"
    )
}

// The line of a step.
fn step_line(alloc: Global, step: IndexStep, at: u64, version: u64) -> Result<String, AllocError> {
    let moment = step.moment();
    match step {
        IndexStep::Enter => version_line(alloc, at, version, moment, "delete_only"),
        IndexStep::Write => version_line(alloc, at, version, moment, "write_only"),
        IndexStep::Open => version_line(alloc, at, version, moment, "public"),
        IndexStep::Begin => {
            let at = seconds(alloc, at)?;
            format!(in alloc; "{{\"kind\":\"begin\",\"at\":{at},\"moment\":{moment}}}\n")
        }
        IndexStep::Fill => {
            let at = seconds(alloc, at)?;
            format!(in alloc; "{{\"kind\":\"filled\",\"at\":{at}}}\n")
        }
    }
}

// The microseconds at this place of sorted times in nanoseconds.
fn micros_at(times: &[u64], place: usize) -> u64 {
    match times.get(place) {
        Some(nanos) => *nanos / 1_000,
        None => 0,
    }
}

// The line of a sample, of writes that took so long, sorted.
fn sample_line(alloc: Global, at: u64, times: &[u64]) -> Result<String, AllocError> {
    let at = seconds(alloc, at)?;
    let rows = times.len();
    if rows == 0 {
        return format!(in alloc; "{{\"kind\":\"sample\",\"at\":{at},\"rows\":0}}\n");
    }
    let median = micros_at(times, rows / 2);
    let most = micros_at(times, rows.saturating_sub(rows.div_ceil(1_000)));
    let longest = micros_at(times, rows.saturating_sub(1));
    format!(in alloc;
        "{{\"kind\":\"sample\",\"at\":{at},\"rows\":{rows},\"median_us\":{median},\"p999_us\":{most},\"longest_us\":{longest}}}\n"
    )
}

impl Sampler {
    // Writes the lines of the steps that were made since.
    fn write_steps<W: Write>(
        &mut self,
        alloc: Global,
        meter: &Meter,
        writer: &mut W,
    ) -> Result<(), LoadFault> {
        for place in self.steps..INDEX_STEPS.len() {
            let step = INDEX_STEPS[place];
            let Some((at, version)) = meter.read_step(step) else {
                return Ok(());
            };
            write_line(writer, step_line(alloc, step, at, version)?.as_str())?;
            self.steps = place + 1;
        }
        Ok(())
    }

    // Writes the line of the writes that ended since.
    fn write_sample<W: Write>(
        &mut self,
        alloc: Global,
        meter: &Meter,
        at: u64,
        writer: &mut W,
    ) -> Result<(), LoadFault> {
        self.times.clear();
        meter.read_took(self.rows, &mut self.times)?;
        self.rows = self.rows.saturating_add(self.times.len());
        self.times.as_mut_slice().sort_unstable();
        write_line(
            writer,
            sample_line(alloc, at, self.times.as_slice())?.as_str(),
        )
    }
}

// Writes lines until all writes and steps have ended.
fn write_until_over<R: Clock + Wait, W: Write>(
    rt: &R,
    alloc: Global,
    meter: &Meter,
    writer: &mut W,
) -> Result<(), LoadFault> {
    let mut sampler = Sampler {
        steps: 0,
        rows: 0,
        times: Vec::new(alloc),
    };
    let mut next = TICK;
    for _i in rt.forever() {
        let is_over = meter.is_over();
        sampler.write_steps(alloc, meter, writer)?;
        let at = meter.elapsed(rt).unwrap_or(0);
        if is_over || at >= next {
            sampler.write_sample(alloc, meter, at, writer)?;
            next = (at / TICK).saturating_add(1).saturating_mul(TICK);
        }
        if is_over {
            return Ok(());
        }
        thread::sleep(rt, Duration::from_nanos(LOOK));
    }
    unreachable!()
}

/// Writes a line for each step of the index, and about each tenth of a second one for the writes that
/// ended since the last, until all have ended. If it cannot, nothing of the load waits any more until
/// it is due. Refused with `Unwritten` if a line cannot be written, and with `Memory`.
pub(crate) fn write_samples<R: Clock + Wait, W: Write>(
    rt: &R,
    alloc: Global,
    meter: &Meter,
    writer: &mut W,
) -> Result<(), LoadFault> {
    let written = write_until_over(rt, alloc, meter, writer);
    if written.is_err() {
        meter.hurry();
    }
    written
}
