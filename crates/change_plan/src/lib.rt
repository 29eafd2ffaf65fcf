//! Least plans: the steps that bring a batch of changes to a schema about, as few as there can be.
#![tactic(auto)]

mod change;
mod changes;
mod check;
mod fault;
mod find;
mod laws;
mod least_plan;
mod numbers;
mod planner;
mod schedule;
mod steps;

pub use change::Change;
pub use fault::PlanFault;
pub use laws::plans_are_least;
pub use least_plan::{LeastPlan, PlanStep, Reorg};
pub use planner::plan;
