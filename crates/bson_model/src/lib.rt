//! What a BSON document is, and which bytes encode it (BSON 1.1, "Specification"): definitions, which contracts of other crates name, and worked examples.
#![tactic(auto)]

pub mod examples;
mod laws;

pub use laws::one_document;
