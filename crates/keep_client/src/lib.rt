//! A client of the cluster's servers: it puts a block, gets one, and fetches the index of a mount, over a link that carries bytes.
#![tactic(auto)]

mod error;
mod exchange;
mod get;
mod index;
mod link;
mod put;
mod requests;
mod said;
mod scripted;
mod tcp;

pub use error::ClientError;
pub use get::get_block;
pub use index::{fetch_index, server_of};
pub use keep_base::Bytes;
pub use keep_spec::Failed;
pub use keep_wire::Response;
pub use link::{Exchange, Link, Standing};
pub use put::{PutDone, put_block};
pub use requests::is_index_prefix;
pub use said::Said;
pub use scripted::{LinkAnswer, ScriptedLink};
pub use tcp::TcpLink;
