//! BSON documents (BSON 1.1, "Specification") of the thirteen supported types: as values, from bytes and to bytes.
#![tactic(auto)]

mod copies;
mod element_type;
mod equality;
mod fault;
mod levels;
mod limits;
mod reader;
mod rooms;
mod scan;
mod sizes;
mod text;
mod value;
mod writer;

pub use fault::BsonFault;
pub use limits::{LENGTH_LIMIT, MOST_BYTES_KEPT, MOST_DEPTH_KEPT};
pub use reader::{document_or_fault, one_fault, one_spelling, read};
pub use text::{Blob, Memory, Name, Text, is_name};
pub use value::{Aligned, Array, Document, Field, Value};
pub use writer::write;
