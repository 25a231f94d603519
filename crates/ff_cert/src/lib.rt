//! What the blocks of a transcript say, and when that is true. Nothing here computes an answer.
#![tactic(auto)]

pub mod answer;
pub mod laws;
pub mod text;

pub use answer::{Answer, PlaceLines, PlaceList, PowerLine, PowerList};
pub use ff_written::RowList;
pub use text::{answer_text, degree, degree_of_places, degree_of_rows, push_answer, push_echo};
