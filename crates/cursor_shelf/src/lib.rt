//! Open cursors (MongoDB manual, "Cursors", "getMore", "killCursors").
#![tactic(auto)]

mod cursor;
mod shelf;

pub use cursor::{FirstBatch, first_batch};
pub use shelf::{Batch, Shelf, ShelfFault};
