//! Devices: blocks with their times, trashed copies, and the lists of a round, over any store.
#![tactic(auto)]

mod digits;
mod index;
mod name_list;
mod name_map;
mod volume;

pub use volume::{OpenError, Volume};
