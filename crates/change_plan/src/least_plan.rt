//! Plans: steps, each with the reorganisations that have to end before it.
use collections::List;
use schema_version::Step;

/// What a reorganisation does to the pairs of one element.
///
/// After the reorganisations of "Online, Asynchronous Schema Change in F1" (Rae et al., 2013).
#[derive(Clone, Copy, PartialEq, Eq)]
pub enum Reorg {
    /// The pairs of the index or the required column of this number are written for all rows.
    Fill(u32),
    /// All pairs of the element of this number are deleted.
    Clear(u32),
}

/// A step of a plan.
#[derive(Clone, PartialEq, Eq, Drop)]
pub struct PlanStep {
    /// The reorganisations that must end before the step is published, in the order of its moves.
    pub before: List<Reorg>,
    /// The moves, in the order of the changes.
    pub step: Step,
}

/// A plan with as few steps as any that brings its changes about.
#[derive(Clone, PartialEq, Eq, Drop)]
pub struct LeastPlan {
    /// The steps in order; none for a batch with no changes.
    pub steps: List<PlanStep>,
}
