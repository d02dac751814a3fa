//! The tasks of clients: how each is opened, which one query each step asks of a port, and how it ends.
#![tactic(auto)]

mod get;
mod locator;
mod opening;
mod put;
mod restart;
mod room;
mod row;
mod running;
mod seen;
mod table;
mod touch;
mod unsigned;
mod untrash;
mod uuid;
mod walk;

pub use get::GetTask;
pub use locator::{signed_locator, touched_locator};
pub use put::PutTask;
pub use restart::RestartTask;
pub use running::{Running, open_task};
pub use table::{TableTask, table_outcome};
pub use touch::TouchTask;
pub use untrash::UntrashTask;
