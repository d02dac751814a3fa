//! What requests of HTTP ask of a cluster, and the responses to its answers. The interface is this project's own, in the manner of Arvados' keepstore.
#![tactic(auto)]

mod bodies;
mod paths;
mod place;
mod refusal;
mod responses;
mod route;
mod writing;

pub use place::Place;
pub use refusal::Refusal;
pub use responses::{error_response, outcome_response, refusal_response, reply_response};
pub use route::{Route, route_of};
