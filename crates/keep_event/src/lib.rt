//! Blocks, what devices and the table are asked and answer, the events of a run, and in `specs/` what a store holds and the machines of a device and of the table.
#![tactic(auto)]

mod block;
mod device;
mod event;
mod failing;
mod lists;
mod names;
mod port;
mod table;

pub use block::{Block, TooLong};
pub use device::{DeviceAnswer, DeviceQuery, DeviceRules};
pub use event::{Answer, Event, Journal, Place, Query};
pub use failing::FailingPort;
pub use lists::{Entry, Lists, PullItem, TrashItem};
pub use names::{Held, Metadata, Name, Stored};
pub use port::{Port, PortError, Reply};
pub use table::{
    Collection, NewRecord, Record, SaveRequest, ScanRow, Standing, TableAnswer, TableQuery,
    TableRules,
};
