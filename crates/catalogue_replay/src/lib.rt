//! What the records of the catalogue's journal replay to.
#![tactic(auto)]

mod kind;
mod part;

pub use part::CataloguePart;
