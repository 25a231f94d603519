//! The maximal orders of a curve, one for each side, as lattices over k[x] and over k[t] with t = 1/x.
#![tactic(auto)]

pub mod orders;

pub use orders::maximal_order;
