//! The answers, a file a statement.

pub mod constants;
pub mod curve;
pub mod factor;
pub mod field;
pub mod mul;
pub mod order;
pub mod place;
pub mod places;
