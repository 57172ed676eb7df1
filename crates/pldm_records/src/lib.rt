//! Platform data records (DSP0248): a repository of them, the parts in which they are transferred, and the fetching of
//! one.
#![tactic(auto)]

mod fetch;
pub mod laws;
mod limits;
mod record;
mod record_answers;
mod repository;

pub use fetch::{Fetch, FetchFault, FetchState};
pub use limits::{MAX_RECORD_BYTES, MAX_RECORDS, RECORD_HEADER};
pub use record::Record;
pub use record_answers::{put_record_part, repository_info};
pub use repository::Repository;
