//! The two sides of a function field.

/// One of the two sides of a function field: the finite places, or those over infinity.
#[derive(Clone, Copy, Debug, PartialEq, Eq)]
pub enum Side {
    Finite,
    Infinite,
}
