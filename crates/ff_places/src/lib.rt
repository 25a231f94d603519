//! All places over a polynomial, or over infinity, as primes of an order that is maximal there (Hess, Computing
//! Riemann-Roch spaces in algebraic function fields, section 3; Cohen, A Course in Computational Algebraic Number
//! Theory, section 6.2).
//!
//! What `places_above` costs, where n is the degree in y and N is n times the degree of the polynomial:
//!
//! - the order modulo the polynomial, an algebra of N dimensions: n² products of elements;
//! - the matrix of the map a to a^q: n powers and 2·N products of classes, since the class of x leads from each class
//!   of the basis to the next; a product of classes is n + 2 subtractions of rows for each of N codes;
//! - the nilpotent and the fixed classes: a kernel of an N by N matrix each, and a product of such matrices for each
//!   doubling until q to this number is at least N; the idempotents of them;
//! - for each place, of which there are at most n: a product of lattices, a colon, at most n + 1 products of elements
//!   for the ramification index, and the factors of the denominators of its n rows for their texts.
#![tactic(auto)]

pub mod components;
pub mod numbers;
pub mod places;
pub mod primes;

pub use places::places_above;
