//! Ideals of orders of F = k(x)[y]/(f): their inverses and powers, primes as values, and the valuation at a prime
//! (Hess, Computing Riemann-Roch spaces in algebraic function fields; Stichtenoth, chapter 3).
#![tactic(auto)]

pub mod exponents;
pub mod inverses;
pub mod powers;
pub mod primes;
pub mod valuations;

pub use exponents::{greatest_exponent, outside_row};
pub use inverses::inverse;
pub use powers::power;
pub use primes::Prime;
pub use valuations::valuation;
