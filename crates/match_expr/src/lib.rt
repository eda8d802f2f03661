//! Filters: which documents they hold of (MongoDB manual, "Query and Projection Operators").
#![tactic(auto)]

mod document_keys;
mod expr;
mod keys;
mod limits;
mod matcher;
mod operand_list;
mod operators;
mod parser;
mod sieve;
mod tests;
mod tree;

pub use document_keys::key_asked_in;
pub use expr::{Expr, MOST_LEVELS, holds, key_asked, key_equal, key_span};
pub use limits::KeyLimits;
pub use sieve::{Sieve, sieve_of};
