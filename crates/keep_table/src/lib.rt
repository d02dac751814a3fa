//! The table of collections: their records over ordered maps, each call one line of the table machine.
#![tactic(auto)]

mod changes;
mod collections;
mod kept;
mod places;
mod records;
mod sizes;
mod table;
mod wants;

pub use keep_event::{
    Collection, NewRecord, Record, SaveRequest, ScanRow, Standing, TableAnswer, TableRules,
};
pub use table::Table;
