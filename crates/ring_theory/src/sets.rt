//! Subsets of a ring, for the theorems that speak of any.

/// A subset of T. Only theorems use it, as a type parameter that no value has.
pub trait Subset<T> {
    ghost members: { T → Type 0 };
}

/// Subsets of T, one for each index.
pub trait Family<I, T> {
    ghost members: { I → T → Type 0 };
}
