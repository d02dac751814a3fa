//! Sessions: the requests of one connection of HTTP, asked of a cluster and answered. The interface is this project's own, in the manner of Arvados' keepstore.
#![tactic(auto)]

mod asking;
mod connection;

pub use connection::session;
pub use keep_wire::SessionEnd;
