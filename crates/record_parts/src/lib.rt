//! The parts of a journal's records from their bytes.
#![tactic(auto)]

mod chunks;
mod entries;
mod fault;
mod parts;

pub use chunks::{read_bound, read_range, read_table, read_version};
pub use entries::{read_operation, read_reply, read_session, read_statement};
pub use fault::RecordFault;
pub use parts::{read_byte, read_document, read_key, read_namespace, read_u32, read_u64};
