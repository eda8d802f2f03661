//! Checks rows of data about the source in a move: what it hands out step by step while documents are written. For each file it prints how
//! many rows hold, and each row that does not.
#![tactic(auto)]

mod batches;
mod growing;
mod sources;
mod words;

use crate::sources::Sources;
use fixtures::check_file;
use std::io;
use value_compare::{Bound, KeyRange};

fn main(rt: HostRuntime) -> io::Result<()> {
    check_sources(&rt, "sources.txt")?;
    check_sources(&rt, "limits.txt")
}

fn check_sources(rt: &HostRuntime, file: &str) -> io::Result<()> {
    match KeyRange::new(Bound::MinKey, Bound::MaxKey) {
        Some(range) => check_file(rt, file, &mut Sources::new(rt.alloc(), range)),
        None => Ok(()),
    }
}
