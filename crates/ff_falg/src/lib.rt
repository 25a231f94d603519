//! Finite commutative algebras over a small field: the Frobenius map, nilpotent and fixed elements, primitive
//! idempotents.
#![tactic(auto)]

pub mod algebra;
pub mod decisions;
pub mod parts;
pub mod powers;
pub mod relations;
mod roots;
mod rows;
pub mod spaces;

pub use algebra::FiniteAlgebra;
pub use decisions::{is_field, is_field_by};
pub use parts::{idempotents, idempotents_by};
pub use powers::frobenius;
pub use spaces::{fixed, fixed_by, nilpotents, nilpotents_by};
