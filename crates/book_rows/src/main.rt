//! Checks rows of data about what a move of a chunk brings along: the books of statement numbers that are merged, and the critical section
//! in which commands wait. For each file it prints how many rows hold, and each row that does not.
#![tactic(auto)]

mod books;
mod sections;
mod words;

use crate::books::Books;
use crate::sections::Sections;
use fixtures::check_file;
use std::io;

fn main(rt: HostRuntime) -> io::Result<()> {
    check_file(&rt, "books.txt", &mut Books::new(rt.alloc()))?;
    check_file(&rt, "sections.txt", &mut Sections { section: None })
}
