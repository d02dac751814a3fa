//! The texts that devices, balancers and other tools exchange: the index of a device, and the lists that a device is given.
#![tactic(auto)]

mod error;
mod index;
mod laws;
mod locator;
mod parsing;
mod writing;

pub use error::{IndexError, ListsError};
pub use index::{read_index, write_index};
pub use keep_event::{Entry, Lists, PullItem, TrashItem};
pub use laws::{cut_indexes_are_cut_off, written_indexes_are_read_again};
pub use parsing::read_lists;
pub use writing::write_lists;
