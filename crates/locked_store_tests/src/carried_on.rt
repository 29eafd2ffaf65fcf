//! Changes that are carried on by `advance` and `complete` alone, also through the lock.
mod fixtures;
mod operators;
mod refusals;
mod shared;
mod side_by_side;
