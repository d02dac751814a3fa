//! The table of collections over two plain lists: the table machine line by line, as it is read, with no index, to compare tables with.
#![tactic(auto)]

mod asked;
mod collections;
mod records;
mod table;

pub use table::PlainTable;
