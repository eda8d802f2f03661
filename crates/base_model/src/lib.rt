//! What all parts of the cluster speak of: names, times, errors and refusals, and the parts of replies. Definitions, which the
//! crates above cite in their contracts, worked examples of them, and the law of the tests of names.
#![tactic(auto)]

pub mod examples;
mod laws;

pub use laws::open_namespaces;
