//! Reads the messages of HTTP/1.x from a source of bytes, and writes them.
#![tactic(auto)]

mod beginning;
mod fields;
mod filling;
mod head;
mod laws;
mod lines;
mod message;
mod reader;
mod replies;
mod request_head;
mod requests;
mod response_head;
mod session_end;
mod target;
mod writing;

pub use beginning::{Beginning, response_beginning};
pub use keep_base::{Bytes, Source};
pub use laws::{requests_determined, responses_determined};
pub use message::{BODY_MAX, FIELDS_MAX, HEAD_MAX, Request, Response, WireError};
pub use replies::Replies;
pub use requests::Requests;
pub use session_end::SessionEnd;
pub use writing::{write_request, write_response};
