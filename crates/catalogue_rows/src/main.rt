//! Checks rows of data about the catalogue of collections: each file is one catalogue, whose changes are made in order. For each file it
//! prints how many rows hold, and each row that does not.
#![tactic(auto)]

mod answers;
mod made;
mod steps;
mod tables;
mod words;

use crate::made::Made;
use crate::steps::Steps;
use fixtures::check_file;
use std::io;

fn main(rt: HostRuntime) -> io::Result<()> {
    check_file(&rt, "moves.txt", &mut Steps::new(rt.alloc()))?;
    check_file(&rt, "refusals.txt", &mut Steps::new(rt.alloc()))?;
    check_file(&rt, "three.txt", &mut Made { table: None })
}
