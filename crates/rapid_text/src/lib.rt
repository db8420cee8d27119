//! RAPID STD traces: the events of a text with their names numbered, read in any pieces, and written again.
#![tactic(auto)]

mod causes;
mod cutter;
mod device;
mod event_lines;
mod feeding;
mod input;
mod interner;
mod laws;
mod line_sink;
mod names;
mod number_cache;
mod output;
mod page;
mod reader;
mod stored_names;
mod window;
mod writing;

pub use causes::{Cause, Kind, NameFault, TextFault};
pub use cutter::Cutter;
pub use device::Device;
pub use event_lines::{kind_at, line_event, op_at};
pub use feeding::{feed_lines, finish_lines, take_text};
pub use input::{Input, ReadFailed};
pub use laws::{nothing_before, pieces_are_one_text};
pub use line_sink::LineSink;
pub use names::Names;
pub use output::{Output, WriteFailed, WriteFault, write_all};
pub use page::Page;
pub use rapid_line::{LineFault, NamedLine, Word, one_content, one_reading, read_line};
pub use reader::Reader;
pub use writing::{parts_of, put_event, write_event, write_fault};
