//! The versions on a line of moments.
use crate::moves::{push_entered, push_moved, push_step};
use crate::unfinished::progress;
use keycode::Text;
use replay::What;
use schema_version::{NewElement, Step};
use script_views::script_session::Opened;
use std::alloc::{AllocError, Global};

/// What happened to the schema at a moment.
#[derive(Clone, Copy)]
pub enum Happened<'a> {
    /// A version was published.
    Version {
        /// Its number.
        version: u64,
        /// Its step; `None` of the first version, and if the log no longer has it in memory.
        step: Option<&'a Step>,
    },
    /// A fill or a clear began.
    Begin {
        /// The number of the element.
        element: u32,
        /// In how many pieces.
        pieces: u32,
    },
}

/// What happened to the schema, and when.
#[derive(Clone, Copy)]
pub struct Event<'a> {
    /// The moment.
    pub moment: u64,
    /// What happened.
    pub what: Happened<'a>,
}

/// What happened to the schema.
#[derive(Drop)]
pub struct History<'a> {
    /// The number of the first element that entered by a step in memory; those after it have the
    /// next ones.
    pub first: u32,
    /// The elements that entered by the steps in memory.
    pub entered: Vec<&'a NewElement>,
    /// What happened, by rising moments.
    pub events: Vec<Event<'a>>,
}

// The elements that entered by the log's publications.
fn entered<'a>(alloc: Global, opened: &'a Opened) -> Result<Vec<&'a NewElement>, AllocError> {
    let mut found = Vec::new(alloc);
    for entry in opened.world.log() {
        if let What::Publish(step) = entry.what.get() {
            push_entered(&mut found, step)?;
        }
    }
    Ok(found)
}

// How many versions the entries in memory publish.
fn known_versions(opened: &Opened) -> usize {
    let mut known = 0usize;
    for entry in opened.world.log() {
        if let What::Publish(_) = entry.what.get() {
            known = known.saturating_add(1);
        }
    }
    known
}

// The versions whose entries are no longer in memory, by their moments alone.
fn push_older<'a>(events: &mut Vec<Event<'a>>, opened: &'a Opened) -> Result<u64, AllocError> {
    let published = opened.world.timeline().published();
    let older = published.len().saturating_sub(known_versions(opened));
    let mut version = 0u64;
    for moment in published.iter().take(older) {
        version = version.saturating_add(1);
        events.push(Event {
            moment: *moment,
            what: Happened::Version {
                version,
                step: None,
            },
        })?;
    }
    Ok(version)
}

fn push_known<'a>(
    events: &mut Vec<Event<'a>>,
    opened: &'a Opened,
    older: u64,
) -> Result<(), AllocError> {
    let mut version = older;
    for entry in opened.world.log() {
        let moment = entry.moment;
        let what = match entry.what.get() {
            What::Publish(step) => {
                version = version.saturating_add(1);
                let step = Some(step);
                Happened::Version { version, step }
            }
            What::Begin { element, pieces } => {
                let (element, pieces) = (*element, *pieces);
                Happened::Begin { element, pieces }
            }
            _ => continue,
        };
        events.push(Event { moment, what })?;
    }
    Ok(())
}

/// Each publication and each begin of a fill or a clear, by rising moments. Of what the log no
/// longer has in memory there are only the versions, with their moments. Refused only when out of
/// memory.
///
/// - `opened`: the world.
pub fn history_of<'a>(alloc: Global, opened: &'a Opened) -> Result<History<'a>, AllocError> {
    let entered = entered(alloc, opened)?;
    let count = u32::try_from(entered.len()).unwrap_or(0);
    let first = opened
        .world
        .newest()
        .get()
        .next_number()
        .wrapping_sub(count);
    let mut events = Vec::new(alloc);
    let older = push_older(&mut events, opened)?;
    push_known(&mut events, opened, older)?;
    Ok(History {
        first,
        entered,
        events,
    })
}

fn push_event(
    out: &mut String,
    opened: &Opened,
    gone: &[(u32, Text)],
    entered: (u32, &[&NewElement]),
    event: &Event<'_>,
) -> Result<(), AllocError> {
    let moment = event.moment;
    match event.what {
        Happened::Version {
            version,
            step: None,
        } => write!(out, "@{moment}  version {version}\n"),
        Happened::Version {
            version,
            step: Some(step),
        } => {
            write!(out, "@{moment}  version {version}: ")?;
            push_step(out, opened, gone, entered, step)
        }
        Happened::Begin { element, pieces } => {
            write!(out, "@{moment}  reorganise ")?;
            push_moved(out, opened, gone, entered, element)?;
            write!(out, " pieces {pieces}\n")
        }
    }
}

/// Each publication with its moment and moves, each begin of a fill or a clear, and what is in
/// progress now. Of what the log no longer has in memory only the moments of the versions are shown.
/// Refused only when out of memory.
///
/// - `opened`: the world.
/// - `gone`: names of elements that have left, by their numbers.
/// - `is_shown`: whether someone sees it on a terminal.
pub fn timeline(
    alloc: Global,
    opened: &Opened,
    gone: &[(u32, Text)],
    is_shown: bool,
) -> Result<String, AllocError> {
    let history = history_of(alloc, opened)?;
    let entered = (history.first, history.entered.as_slice());
    let mut out = String::new(alloc);
    for event in history.events.as_slice() {
        push_event(&mut out, opened, gone, entered, event)?;
    }
    let moment = opened.world.moment();
    let now = progress(alloc, opened, is_shown)?;
    write!(out, "@{moment}  now\n{now}")?;
    Ok(out)
}
