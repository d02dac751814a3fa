//! The configuration: parsing, and what follows from its fields. Its readers of JSON values are public, for other texts of this project.
#![tactic(auto)]

mod config;
mod distinct;
mod elements;
mod error;
mod fields;
pub mod json;
mod limits;

pub use config::Config;
pub use error::ConfigError;
pub use keep_spec::{BadUuid, Device, Field, Mount, Server, TokenId, Uuid};
