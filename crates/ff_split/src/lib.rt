//! Bases of a lattice over k[x] that are, each function times a power of x, bases of a lattice at infinity too.
//!
//! What `split` costs, where n is the degree in y, at most 4: coordinates of n rows for each power of t that is tried
//! (1, 2, 4, and so on, up to a power that takes k[t][Y] into the lattice at infinity), n² products of polynomials, one
//! Popov basis of n rows, and for each of its rows n multiples of elements and the factors of their common denominator.
#![tactic(auto)]

mod basis;
mod coordinates;
pub mod laws;
mod order;
mod products;
mod rows;
pub mod simultaneous;
mod turned;

pub use simultaneous::{SplitBasis, split};
