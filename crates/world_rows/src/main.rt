//! Checks rows of data on the devices and the journal: streams, links, disks in memory and over files, a journal's calls, and the file after a crash at each
//! moment. For each file it prints how many rows hold, and each row that does not.
#![tactic(auto)]

mod answers;
mod clocks;
mod crashes;
mod disks;
mod files;
mod journals;
mod links;
mod openings;
mod records;
mod sinks;
mod sources;

use crate::clocks::tell_clocks;
use crate::crashes::Crashes;
use crate::disks::Disks;
use crate::files::check_files;
use crate::journals::Journals;
use crate::links::Links;
use crate::openings::Openings;
use crate::sinks::Sinks;
use crate::sources::Sources;
use fixtures::check_file;
use std::io;

fn main(rt: HostRuntime) -> io::Result<()> {
    check_streams(&rt)?;
    check_disks(&rt)?;
    check_files(rt)?;
    tell_clocks(rt)
}

fn check_streams(rt: &HostRuntime) -> io::Result<()> {
    check_file(rt, "sources.txt", &mut Sources)?;
    check_file(rt, "sinks.txt", &mut Sinks)?;
    check_file(rt, "links.txt", &mut Links)
}

fn check_disks(rt: &HostRuntime) -> io::Result<()> {
    check_file(rt, "disks.txt", &mut Disks)?;
    check_file(rt, "journals.txt", &mut Journals)?;
    check_file(rt, "crashes.txt", &mut Crashes)?;
    check_file(rt, "journal_files.txt", &mut Openings)
}
