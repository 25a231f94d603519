//! The infinite side of a curve: the order k[t][Y] of its infinite presentation, and membership over the fractions of
//! degree at most 0.
#![tactic(auto)]

pub mod local;
pub mod start;

pub use local::local_contains;
pub use start::infinite_start;
