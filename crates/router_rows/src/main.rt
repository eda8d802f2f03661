//! Checks rows of data about a router alone, in a cluster of two shards that both have keys of a collection: what it sends and returns at each step. For each
//! file it prints how many rows hold, and each row that does not.
#![tactic(auto)]

mod asked;
mod messages;
mod outcome;
mod refusals;
mod router;
mod steps;
mod words;
mod writes;

use crate::steps::Steps;
use fixtures::check_file;
use std::io;

fn main(rt: HostRuntime) -> io::Result<()> {
    check_file(&rt, "reads.txt", &mut Steps::new())?;
    check_file(&rt, "writes.txt", &mut Steps::new())?;
    check_file(&rt, "refusals.txt", &mut Steps::new())
}
