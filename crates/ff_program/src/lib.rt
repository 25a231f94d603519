//! The program as a library: `top` does what the words of a command ask for, over a source and a sink, and `Status`
//! says how it ended.
#![tactic(auto)]

pub mod laws;
pub mod program;
pub mod run;
pub mod status;

pub use program::top;
pub use status::Status;
