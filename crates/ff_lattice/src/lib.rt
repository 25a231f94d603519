//! Lattices in F = k(x)[y]/(f): modules over k[x] of full rank, by their Popov bases.
//!
//! What the calls cost, where n is the degree in y, at most 4, and d the degree of the rows. A step is one simple
//! transformation of rows in the making of a Popov basis; it takes time linear in the two rows.
//!
//! - `Lattice::from_generators` of m elements: a Popov basis of m rows, at most m·n·(d + 1) steps, and the least
//!   denominator:
//! about e² products and sums of codes for each of the n² entries, where e is the degree of the common denominator, and
//!   at most e³ more in all.
//! - `sum`: that of 2·n generators. `product`: that of n², of the degree 2·d, and n² products of elements.
//! - `colon`: for each row of the second lattice a Popov basis of 2·n rows of 2·n columns, of about the degree 3·d, and
//!   where
//!   the row takes members away a least denominator; it is the dearest of these calls.
//! - `scale`: a Popov basis without a step, and the least denominator. `contains`: one division by n rows.
//!   `same_lattice`,
//!   `pivot_degree`: time in the size of the rows.
//! - `Order::new` and `is_ideal`: n² products of elements, and n² + 1 and n² + n questions `contains`.
//! - `Quotient::new`: n² products of elements and a Popov basis of n rows. `reduce`: two subtractions of rows for each
//!   position of
//! the row. `lift`: a subtraction for each code. The product of two classes: n + 1 times the time of `lift`, and that
//! of
//!   `reduce`.
//!
//! Over the field of 7 elements with n = 4, two lattices of the pivot degree 128 take about 4,100 steps for their
//! product and 4,200 to 12,000 for a colon; two with rows of the degree 128 take 14,500 and 16,000 to 46,600.
#![tactic(auto)]

pub mod colons;
mod degrees;
mod denominators;
pub mod generators;
pub mod ideals;
pub mod indices;
pub mod lattice;
pub mod multiples;
mod multipliers;
pub mod operations;
pub mod order;
mod positions;
mod preimage;
pub mod quotient;
mod rows;
pub mod sets;
pub mod unit;

pub use colons::{colon, polynomial_in};
pub use generators::LatticeFault;
pub use lattice::Lattice;
pub use multiples::scale;
pub use operations::{product, sum};
pub use order::Order;
pub use quotient::Quotient;
pub use sets::{contains, same_lattice};
