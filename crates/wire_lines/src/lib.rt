//! Connections and scripts as rows of data: what a line of a row says, what the framer and the commands return for the bytes that arrive, and whether a call
//! of any server that is given the row's devices ends as the row says.
#![tactic(auto)]

mod commands;
mod connections;
mod devices;
mod frames;
mod pieces;
mod row;

pub use connections::Connections;
pub use devices::{Devices, Left, RowClock, Serves};
pub use frames::told_of;
pub use pieces::{Cutting, NarrowSink, PieceSource};
pub use row::Row;
