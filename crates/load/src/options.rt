//! What a load is asked for beside its size.

/// How a load goes, and what it writes. If no option is set, it inserts as many rows a second as it can
/// and writes five lines in the end.
#[derive(Clone, Copy, PartialEq, Eq)]
pub struct LoadOptions {
    /// How many rows a second are due over all servers; without one, each as soon as a server is
    /// free.
    pub rate: Option<u32>,
    /// Whether the writer gets lines of JSON while the load runs, in place of the five lines.
    pub is_sampled: bool,
    /// Whether standard error gets a line that says how long the inserts, the index and the audit
    /// took, in milliseconds.
    pub is_timed: bool,
    /// Whether someone is to see a bar on standard error.
    pub is_shown: bool,
}
