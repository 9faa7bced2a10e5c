// The events of an account, read from a text and written as lines: fields, and the figures and letters that stand in them.
#![tactic(auto)]

mod cell;
mod cells;
mod correction;
pub mod event;
pub mod fault;
mod field;
pub mod fields;
mod figure;
mod letters;
mod line_fields;
pub mod lines;
mod read;
pub mod unwritten;
mod write;

pub use read::read_event;
pub use write::write_event;
