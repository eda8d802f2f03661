//! Checks rows of data on pipelines: their results, whole and by halves that are merged, which arrays are not pipelines, which results are too long, and the
//! batches of cursors. For each file it prints how many rows hold, and each row that does not.
#![tactic(auto)]

mod batches;
mod halves;
mod lengths;
mod long_documents;
mod merges;
mod outcomes;
mod refusals;
mod whole;
mod words;

use crate::batches::Batches;
use crate::lengths::Lengths;
use crate::merges::{ForeignRows, Merges};
use crate::refusals::{LongPipelines, Refusals};
use crate::whole::Answers;
use fixtures::check_file;
use std::io;

fn main(rt: HostRuntime) -> io::Result<()> {
    check_file(&rt, "answers.txt", &mut Answers)?;
    check_file(&rt, "refused.txt", &mut Refusals)?;
    check_file(&rt, "long.txt", &mut LongPipelines)?;
    check_file(&rt, "merges.txt", &mut Merges)?;
    check_file(&rt, "foreign.txt", &mut ForeignRows)?;
    check_file(&rt, "lengths.txt", &mut Lengths)?;
    check_file(&rt, "batches.txt", &mut Batches)
}
