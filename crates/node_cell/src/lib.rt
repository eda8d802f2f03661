//! Nodes with their logs under locks, whose steps have numbers in one order.
#![tactic(auto)]

mod board;
mod cell;
mod close;
mod deliveries;
mod fault;
mod groups;
mod guarded;
mod letter;
mod numbers;
mod queue;
mod view;

pub use cell::Cell;
pub use close::{cells, close_cells};
pub use deliveries::Delivered;
pub use fault::CellFault;
pub use letter::{Letter, Note, Reply, Stepped};
pub use numbers::{Book, Numbers};
pub use view::{Halt, Law, Numbering, Opening, Pass, Placed, Safe, Taken, View};
