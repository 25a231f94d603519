//! Divisors as formal sums of integers by place number (Stichtenoth, Algebraic Function Fields and Codes, section 1.4).
//! What a place is, and which number it has, is the caller's matter. A divisor is held in its one form: each place
//! once, by ascending numbers, with an integer that isn't 0. Contracts see this list; `multiplicity` in specs/ reads it
//! as a function of the place.
//!
//! What the calls cost, for lists of n and m entries: `from_list` the time of a sort, `add` n + m steps, `scale`, `neg`
//! and `copy` n steps, `multiplicity` a binary search. `multiplicity` and `entries` take no memory.
#![tactic(auto)]

pub mod divisor;
pub mod laws;

pub use divisor::Divisor;
