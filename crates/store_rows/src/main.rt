//! Checks rows of data about what is stored: names, codes and times, the bytes of records, tables of chunks, and a collection with its past
//! versions. For each file it prints how many rows hold, and each row that does not.
#![tactic(auto)]

mod names;
mod numbers;
mod owners;
mod read_records;
mod records;
mod steps;
mod tables;
mod verdicts;

use crate::names::{Databases, Names, Parts};
use crate::numbers::{Codes, Moments};
use crate::owners::{Owners, Versions};
use crate::read_records::{Others, Records};
use crate::records::{Creations, Entries, Splits};
use crate::steps::Steps;
use crate::tables::Bounds;
use crate::verdicts::Verdicts;
use fixtures::check_file;
use mvcc_collection::same_keys_are_one;
use std::io;

fn main(rt: HostRuntime) -> io::Result<()> {
    same_keys_are_one();
    check_base(&rt)?;
    check_records(&rt)?;
    check_tables(&rt)?;
    check_collections(&rt)
}

fn check_base(rt: &HostRuntime) -> io::Result<()> {
    check_file(rt, "moments.txt", &mut Moments)?;
    check_file(rt, "codes.txt", &mut Codes)?;
    check_file(rt, "databases.txt", &mut Databases)?;
    check_file(rt, "names.txt", &mut Names)?;
    check_file(rt, "parts.txt", &mut Parts)
}

fn check_records(rt: &HostRuntime) -> io::Result<()> {
    check_file(rt, "entries.txt", &mut Entries)?;
    check_file(rt, "creations.txt", &mut Creations)?;
    check_file(rt, "splits.txt", &mut Splits)?;
    check_file(rt, "records.txt", &mut Records)?;
    check_file(rt, "no_records.txt", &mut Others)
}

fn check_tables(rt: &HostRuntime) -> io::Result<()> {
    check_file(rt, "bounds.txt", &mut Bounds)?;
    check_file(rt, "owners.txt", &mut Owners)?;
    check_file(rt, "versions.txt", &mut Versions)?;
    check_file(rt, "verdicts.txt", &mut Verdicts)
}

fn check_collections(rt: &HostRuntime) -> io::Result<()> {
    check_file(rt, "chains.txt", &mut Steps::new(rt.alloc()))?;
    check_file(rt, "spans.txt", &mut Steps::new(rt.alloc()))
}
