//! The source's part in the copy of a moving range: how far it is, and which keys were written since they were handed out.
#![tactic(auto)]

mod filling;
mod giving;

pub use giving::{GiveStage, Giving};
