//! Maximal orders of F = k(x)[y]/(f): the radical of an order at an irreducible polynomial, its multipliers, and the
//! enlargement by them (Pohst and Zassenhaus).
#![tactic(auto)]

pub mod enlarge;
pub mod laws;
pub mod radicals;
pub mod start;

pub use enlarge::{enlarged, maximal, multiplier, p_maximal};
pub use radicals::{multiples, radical, radical_by};
pub use start::equation_order;
