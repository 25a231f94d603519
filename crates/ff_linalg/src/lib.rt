//! Matrices over a small field: reduced row echelon form, kernel, solutions and the first relation of the rows.
#![tactic(auto)]

pub mod elimination;
pub mod kernels;
pub mod matrix;
pub mod relations;
mod rows;
pub mod slices;
pub mod solutions;

pub use elimination::echelon;
pub use kernels::kernel;
pub use matrix::Matrix;
pub use relations::min_relation;
pub use slices::add_multiple;
pub use solutions::solve;
