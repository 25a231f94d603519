//! Commutative algebras of finite dimension over a small field that are given by structure constants, and all their
//! idempotents.
#![tactic(auto)]

pub mod idempotents;
pub mod structure;

pub use idempotents::all_idempotents;
pub use structure::Structure;
