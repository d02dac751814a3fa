//! The plan of a balance round: of what was gathered, which replicas are trashed, which are pulled, and which blocks are lost.
#![tactic(auto)]

mod decide;
mod decision;
mod drafts;
mod give;
mod groups;
mod laws;
mod mentions;
mod order;
mod plan;

pub use laws::{kept_holders_are_enough, pull_items_fill_gaps, trash_items_are_of_others};
pub use plan::Plan;
