//! What a node stores in its journal: records as values, and as bytes in a format that is own.
#![tactic(auto)]

mod batch;
mod change_writer;
mod changes;
mod move_writer;
mod moves;
mod parts_writer;
mod record;
mod session_writer;
mod tables;
mod writer;

pub use batch::{MoveBatch, MovedDocument, MovedList};
pub use changes::{CommitChange, PurgeChange, ResolveChange, SplitChange};
pub use moves::{
    Deletion, MoveEnd, MoveStart, ReceiveDone, ReceiveStart, ReceivedBatch, SectionStart,
};
pub use parts_writer::{
    write_block, write_catalogue_ceiling, write_ceiling, write_commit, write_creation, write_life,
    write_split,
};
pub use record::{Record, WordsRef};
pub use tables::write_table;
pub use writer::{write_entry, write_record};
