//! Tests of nodes and drivers that are not rows of data: a node that replies nothing and a step of it, and lines of scripts.
#![tactic(auto)]

mod idle;
#[cfg(test)]
mod lines;
mod state;
#[cfg(test)]
mod tests;

pub use idle::{IdleInput, Silent};
pub use state::Idle;
