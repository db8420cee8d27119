//! One line of a RAPID STD trace: `thread|word(argument)|location`.
//!
//! The grammar says which named event a content has. Where it has none, the causes have an order.
//! `read_line` reads a content from left to right and meets both.
#![tactic(auto)]

mod bytes;
mod line_cutter;
mod lines;
mod marks;
mod words;

pub use bytes::{contains, cut_at, without_cr};
pub use line_cutter::{CutLine, LineCutter, LineTooLong};
pub use lines::{NamedLine, one_content, one_reading, read_barred, read_line, word_at};
pub use marks::Line;
pub use words::{LineFault, Word};
