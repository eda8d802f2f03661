//! Paths into documents, and what is at them (MongoDB manual, "Dot Notation", "Query an Array of Embedded Documents").
#![tactic(auto)]

mod path;
mod values;
mod walk;

pub use path::{MOST_PARTS, ParseFault, Path, PathFault, parse_path};
pub use values::values_at;
pub use walk::{Visitor, any_at, gap_at};
