//! What the lines of a script mean over what is bound, and when they are refused: fields, polynomials and elements as
//! they are written, and the one way in which a function is written.
#![tactic(auto)]

pub mod bases;
pub mod elements;
pub mod fields;
pub mod laws;
pub mod polynomials;
pub mod refusal;

pub use bases::{Base, base_of};
pub use elements::element;
pub use fields::{by_tables, field, field_refusal};
pub use polynomials::{degree_in_x, polynomial, sum};
pub use refusal::{Refusal, push_refusal, refusal_text};
