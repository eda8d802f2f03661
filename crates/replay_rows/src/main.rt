//! Checks rows of data about journals: whether the records of each replay, and which of them is refused. It prints how many rows hold, and each row that does
//! not.
#![tactic(auto)]

mod journals;
mod named;

use crate::journals::Journals;
use fixtures::check_file;
use std::io;

fn main(rt: HostRuntime) -> io::Result<()> {
    check_file(&rt, "journals.txt", &mut Journals::new(rt.alloc()))
}
