//! Projections: the document that they make of another (MongoDB manual, "$project", "Project Fields to Return from Query").
#![tactic(auto)]

mod parser;
mod projections;
mod rules;
mod values;

pub use projections::{Projection, project};
pub use values::value_at;
