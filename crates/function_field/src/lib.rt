//! The book of the project: F = k(x)[y]/(f) and all that is said of it, as definitions in specs/. Integral functions,
//! places, powers and valuations, divisors and L(D), constants, the genus, canonical divisors, with the rings, spans
//! and presentations that they rest on (Stichtenoth, Algebraic Function Fields and Codes, chapters 1, 3 and 4). There
//! is no code here but the two sides of a function field.
#![tactic(auto)]

pub mod side;

pub use side::Side;
