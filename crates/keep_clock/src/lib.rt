//! Clocks, and instants in text.
#![tactic(auto)]

mod clock;
mod date;
mod parsing;
mod writing;

pub use clock::{Clock, ListClock, Never};
pub use parsing::{BadInstant, read_instant};
pub use writing::write_instant;
