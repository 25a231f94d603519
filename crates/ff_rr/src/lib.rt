//! The constants of a function field, its idempotents and its genus, from the maximal orders of both sides (F. Hess,
//! Computing Riemann-Roch spaces in algebraic function fields and related topics, 2002; Stichtenoth, Algebraic Function
//! Fields and Codes, section 3.1).
//!
//! What the calls cost, each says. The dearest is `constants`, for the basis of both orders.
#![tactic(auto)]

pub mod frame;
pub mod genera;
pub mod laws;
pub mod listing;
pub mod pairs;
pub mod spaces;
mod sums;
mod tables;

pub use frame::Frame;
pub use genera::genus;
pub use listing::{idempotents, idempotents_of};
pub use pairs::ideal_pair;
pub use spaces::{SpaceBasis, constants, space};
