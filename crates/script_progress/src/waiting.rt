//! What an element that is being added or dropped waits for.
use crate::fills::{goes_over_rows, rows_of};
use schema_version::{ElementDef, Work};
use script_views::world::World;
use std::alloc::AllocError;

/// How far a begun reorganisation has come.
#[derive(Clone, Copy)]
pub struct Begun {
    /// Whether it is a fill or a clear.
    pub work: Work,
    /// How many pieces it has.
    pub pieces: usize,
    /// How many of them have ended.
    pub ended: u32,
    /// How many of the rows that it goes over are passed, and of how many. `None` of a clear of an
    /// index: it deletes the pairs that it passes, so how many there were is not known.
    pub rows: Option<(usize, usize)>,
    /// How many items are left, which are rows or, of a clear of an index, pairs.
    pub left: usize,
}

/// What an element that is being added or dropped waits for.
#[derive(Clone, Copy)]
pub enum Waiting {
    /// The end of its begun reorganisation.
    End(Begun),
    /// The begin of its reorganisation.
    Begin {
        /// Whether it is a fill or a clear.
        work: Work,
        /// The moment from which on it may begin; `None` if it may begin now.
        from: Option<u64>,
        /// How many rows a fill would read; `None` of a clear, and if it is not known.
        reads: Option<usize>,
    },
    /// Its next state, which may be published from this moment on.
    Publication(u64),
}

/// The word for a reorganisation: `fill` or `clear`.
pub fn work_word(work: Work) -> &'static str {
    match work {
        Work::Fill => "fill",
        Work::Clear => "clear",
    }
}

// How many of so many pieces have ended.
fn count_ended(world: &World, number: u32, pieces: usize) -> u32 {
    let mut ended = 0u32;
    for piece in 0..pieces.min(64) as u32 {
        if matches!(world.piece_progress(number, piece), Some((_, true))) {
            ended = ended.saturating_add(1);
        }
    }
    ended
}

// How many of the rows that a begun reorganisation goes over are passed, and of how many.
fn rows_passed(world: &World, element: &ElementDef, work: Work) -> Option<(usize, usize)> {
    if !goes_over_rows(work, element) {
        return None;
    }
    let all = world.items_in_all(element.number)?;
    let left = world.items_left(element.number)?;
    Some((all.saturating_sub(left), all))
}

fn begun_of(world: &World, element: &ElementDef, work: Work, pieces: usize) -> Begun {
    Begun {
        work,
        pieces,
        ended: count_ended(world, element.number, pieces),
        rows: rows_passed(world, element, work),
        left: world.items_left(element.number).unwrap_or(0),
    }
}

// When a fill or a clear may begin, and what a fill would read.
fn beginning_of(world: &World, element: &ElementDef, work: Work) -> Waiting {
    let from = if world.is_settled(world.moment(), element.number) {
        None
    } else {
        Some(world.timeline().earliest())
    };
    let reads = match work {
        Work::Fill => rows_of(world, element.table),
        Work::Clear => None,
    };
    Waiting::Begin { work, from, reads }
}

/// What an element that is being added or dropped waits for.
///
/// - `world`: the world.
/// - `element`: an element of its newest version that is being added or dropped.
pub fn waiting_of(world: &World, element: &ElementDef) -> Waiting {
    match (world.progress(element.number), element.wanted_work()) {
        (Some((work, pieces, _)), _) => Waiting::End(begun_of(world, element, work, pieces)),
        (None, Some(work)) => beginning_of(world, element, work),
        (None, None) => Waiting::Publication(world.timeline().earliest()),
    }
}

fn push_begun(out: &mut String, begun: Begun) -> Result<(), AllocError> {
    let word = work_word(begun.work);
    let (ended, pieces, left) = (begun.ended, begun.pieces, begun.left);
    write!(out, "{word}: {ended} of {pieces} pieces ended, ")?;
    match begun.rows {
        Some((passed, all)) => write!(out, "{passed} of {all} rows passed"),
        None => write!(out, "{left} pairs left"),
    }
}

fn push_beginning(
    out: &mut String,
    work: Work,
    from: Option<u64>,
    reads: Option<usize>,
) -> Result<(), AllocError> {
    let word = work_word(work);
    write!(out, "its {word} may begin")?;
    if let Some(moment) = from {
        write!(out, " at {moment}")?;
    }
    match reads {
        Some(rows) => write!(out, ", and would read {rows} rows"),
        None => Ok(()),
    }
}

/// Adds what an element that is being added or dropped waits for. Refused only when out of memory.
pub fn push_waiting(
    out: &mut String,
    world: &World,
    element: &ElementDef,
) -> Result<(), AllocError> {
    match waiting_of(world, element) {
        Waiting::End(begun) => push_begun(out, begun),
        Waiting::Begin { work, from, reads } => push_beginning(out, work, from, reads),
        Waiting::Publication(moment) => {
            write!(out, "its next state may be published at {moment}")
        }
    }
}
