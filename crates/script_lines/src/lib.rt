//! The lines of a script of events: reading one, and printing what a script answers.
#![tactic(auto)]

mod kinds;
mod line;
mod print;
mod words;

pub use line::{Line, LineFault, read_line};
pub use print::{put_closed, put_reply};
pub use words::cut_at;
