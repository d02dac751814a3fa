//! The lines of a script: what one asks for, and what is printed of an event and of a task's end. The form of the lines is this project's own.
#![tactic(auto)]

mod collections;
mod fields;
mod hexadecimal;
mod line;
mod opening;
mod printed;
mod rounds;
mod tables;

pub use line::{CommandError, read_line};
pub use printed::{push_end_line, push_event_line};
pub use tables::push_table_event_line;
