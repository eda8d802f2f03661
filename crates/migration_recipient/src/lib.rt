//! The recipient's part in the copy of a moving range: each batch is applied once, in order.
#![tactic(auto)]

mod apply;
mod taking;

pub use taking::{Fit, Taking};
