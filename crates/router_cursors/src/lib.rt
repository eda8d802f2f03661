//! The cursors of a router: their numbers, and the documents that they have not shown yet.
#![tactic(auto)]

mod closing;
mod list;
mod mark;
mod number;
mod restored;

pub use closing::Closing;
pub use list::CursorList;
pub use number::NewNumber;
