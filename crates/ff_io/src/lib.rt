//! Sources of bytes and sinks for bytes. Each counts its faults, so that a call which fails has a cause.
#![tactic(auto)]

pub mod adapters;
pub mod memory;
pub mod sink;
pub mod source;

/// A read or a write failed.
#[derive(Clone, Copy, Debug, PartialEq, Eq)]
pub struct Failed;
