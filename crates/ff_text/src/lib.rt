//! Texts of numbers, polynomials and elements: how they are written in scripts, and how they are printed.
//!
//! A spelling is what may be written, with blanks and signs as the writer likes; a value has many. The relations of
//! specs/Spelling.antt say which. The readers of `read` read them, `print` prints each value in one way, and `collect`
//! makes a polynomial over a field of what was read.
#![tactic(auto)]

mod element;
pub mod fault;
pub mod laws;
pub mod number;
pub mod print;
pub mod printed;
pub mod read;
mod scan;
pub mod terms;
pub mod values;

pub use fault::TextFault;
pub use print::{print_element, print_terms, push_element, push_terms};
pub use printed::Written;
pub use read::{read_element, read_number, read_terms, read_terms_in_x};
pub use terms::{ElemText, EntryList, Factor, FactorList, Term, TermList};
pub use values::collect;
