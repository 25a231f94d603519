//! Values read from the lines of a table of cases, and written into their answers: fields, polynomials as codes, rows
//! between commas, elements, presentations, terms and matrices. All that a call asks of its arguments is tested here,
//! so that programs of cases prove nothing.
//!
//! | Value | Text |
//! |---|---|
//! | field | `7`, or the prime, the degree and the modulus `2 3 1 1 0 1`; the same by tables: `tables 7` |
//! | polynomial | its codes, lowest first: `1 0 3`; 0 is written `0`, and read from no codes too |
//! | row | polynomials between commas: `1 0 3, 0, 2` |
//! | element | numerators, a stroke, the denominator: `1 1, 2 / 0 1` |
//! | rows | rows between semicolons |
//! | terms | the exponents of y and x, and the code: `2 0 1, 0 3 6` |
//! | matrix | the numbers of rows and columns, and the rows: `2 3, 1 2 3, 4 5 6` |
#![tactic(auto)]

pub mod curves;
pub mod fields;
pub mod matrices;
pub mod print;
pub mod read;
pub mod rows;
pub mod terms;
