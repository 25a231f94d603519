//! Sessions: what the statements of a script bind and answer, block by block, and when a statement is refused.
#![tactic(auto)]

mod bindings;
mod curves;
mod names;
pub mod session;
mod statements;

pub use ff_cert::push_echo;
pub use ff_meaning::{Refusal, push_refusal, refusal_text};
pub use session::Session;
