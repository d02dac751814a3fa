//! The workers of a device: a trash worker and a pull worker work the device's lists off, and an empty worker removes its trashed copies.
#![tactic(auto)]

mod empty;
mod items;
mod pull;
mod trash;

pub use empty::EmptyWorker;
pub use items::ITEMS_MAX;
pub use pull::PullWorker;
pub use trash::TrashWorker;
