//! Spaces of functions over k in their printed form: over the monic polynomial d of least degree for which d times each
//! function has polynomials as coordinates, the numerators are rows over the monomials y^i·x^j, ordered by i and then
//! by j, and the reduced row echelon form of these rows, top row first, gives the basis, each function in lowest
//! terms. A space has one such basis.
//!
//! What the calls cost, for m spanning functions over a denominator of degree e, of at most w codes for a coordinate:
//! the factors of the least common denominator and of a common multiple of the given ones, m²·n·w products of codes for
//! the echelon form, and for each function a division of each part by each factor.
#![tactic(auto)]

pub mod combinations;
mod denominators;
mod functions;
pub mod laws;
mod layers;
mod rows;
pub mod space;
mod vectors;

pub use combinations::coordinates;
pub use space::{PrintedBasis, span, spanned};
