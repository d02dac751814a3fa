//! Saves, updates and reads of collections: the table's queries as they are asked, by a token's text and with signatures.
#![tactic(auto)]

mod queries;
mod request;
mod signed;

pub use keep_event::{SaveRequest, TableAnswer, TableQuery};
pub use keep_table::Table;
pub use queries::{answer, rules_of, save, update};
pub use request::{Verdict, judged};
