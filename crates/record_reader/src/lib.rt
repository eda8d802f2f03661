//! Records of a journal from their bytes.
#![tactic(auto)]

mod batches;
mod changes;
mod entries;
mod moves;
mod reader;
mod sessions;

pub use reader::read_record;
pub use record_parts::RecordFault;
