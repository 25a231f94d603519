//! Polynomials over a small field modulo a monic one, factors of polynomials, and fractions in lowest terms.
#![tactic(auto)]

pub mod decisions;
pub mod factors;
pub mod lowest;
mod order;
mod primes;
pub mod quotient;
mod steps;

pub use decisions::is_irreducible;
pub use factors::{Factors, factor, one_factorisation};
pub use lowest::{cancel, divisors_of_product, lowest_terms, one_lowest};
pub use quotient::{PolyQuotient, product_law};
