//! What a balance round gathers: the pages that devices gave and the scans of the table, as they were given.
#![tactic(auto)]

mod gather;
mod given;

pub use gather::{Gather, Scanned};
pub use given::{GivenPage, GivenScan};
pub use keep_event::{Entry, ScanRow};
