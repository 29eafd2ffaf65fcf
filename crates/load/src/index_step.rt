//! The steps by which the index is added.

/// A step, in their order.
#[derive(Clone, Copy, PartialEq, Eq)]
pub(crate) enum IndexStep {
    /// The version is published in which the index is `delete_only`.
    Enter,
    /// The version is published in which it is `write_only`.
    Write,
    /// Its fill begins.
    Begin,
    /// All pieces of its fill are finished.
    Fill,
    /// The version is published in which it is `public`.
    Open,
}

/// How many steps there are.
pub(crate) const STEP_COUNT: usize = 5;

/// All of them, each at its place.
pub(crate) const INDEX_STEPS: [IndexStep; STEP_COUNT] = [
    IndexStep::Enter,
    IndexStep::Write,
    IndexStep::Begin,
    IndexStep::Fill,
    IndexStep::Open,
];

impl IndexStep {
    /// The moment at which it is made.
    pub(crate) fn moment(self) -> u64 {
        match self {
            IndexStep::Enter => 10,
            IndexStep::Write => 20,
            IndexStep::Begin | IndexStep::Fill | IndexStep::Open => 30,
        }
    }

    /// Its place in the list of all.
    pub(crate) fn place(self) -> usize {
        match self {
            IndexStep::Enter => 0,
            IndexStep::Write => 1,
            IndexStep::Begin => 2,
            IndexStep::Fill => 3,
            IndexStep::Open => 4,
        }
    }
}
