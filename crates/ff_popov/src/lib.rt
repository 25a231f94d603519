//! Weak Popov and Popov form of rows of polynomials over a small field, and coordinates in a Popov basis.
#![tactic(auto)]

pub mod basis;
pub mod members;
mod rows;
pub mod steps;
pub mod weak;

pub use basis::popov;
pub use members::coordinates;
pub use steps::Steps;
pub use weak::weak_popov;
