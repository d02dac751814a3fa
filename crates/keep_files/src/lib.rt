//! Files packed into blocks and a manifest, and unpacked again.
#![tactic(auto)]

mod blocks;
mod cutter;
mod fault;
mod file;
mod laws;
mod layout;
mod packing;
mod path;
mod places;
mod segments;
mod unpacking;

pub use fault::{PackError, UnpackError};
pub use file::{FileIn, Packed};
pub use laws::ascending_files_are_the_files;
pub use packing::pack_files;
pub use unpacking::unpack;
