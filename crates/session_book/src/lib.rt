//! The reply to each numbered statement, so that it is done at most once.
#![tactic(auto)]

mod book;
mod laws;
mod merges;
mod session;

pub use book::{Book, Seen};
pub use laws::{floors_make_the_book, merged_floors_cover};
