//! What all workers of one call share.
use reorganise::Work;

/// Which reorganisation is to be run to its end, and how.
#[derive(Clone, Copy)]
pub(crate) struct Job {
    /// The moment of each commit.
    pub(crate) moment: u64,
    /// The number of the element.
    pub(crate) element: u32,
    /// Whether it is filled or cleared.
    pub(crate) kind: Work,
    /// How many pieces the reorganisation has.
    pub(crate) pieces: usize,
    /// How many items are read at a time.
    pub(crate) limit: u32,
    /// After how many failed tries a piece is given up.
    pub(crate) tries: u32,
    /// The least front of the handles at entry: the entries that all of them had seen.
    pub(crate) front: u64,
    /// The greatest one: no handle had seen more.
    pub(crate) most: u64,
}
