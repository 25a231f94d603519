//! Functions as they are written: in x and y, over a monic denominator of least degree. All that is printed of a
//! function passes here.
//!
//! What the calls cost: the factors of a denominator for `in_lowest_terms` and `written`, and for each row of
//! `written_rows`; `in_lowest_terms_by` takes one division of each part for each time that a divisor is cancelled, and
//! one more for each divisor.
#![tactic(auto)]

pub mod laws;
pub mod rows;
pub mod texts;
pub mod written;

pub use rows::{RowList, written_rows};
pub use texts::is_before_text;
pub use written::{as_written, copy_elements, in_lowest_terms, in_lowest_terms_by};
