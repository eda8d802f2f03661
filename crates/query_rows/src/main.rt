//! Checks rows of data on paths, filters, changes and statements, projections, sorts and groups: which are read, and what each results in. For each file it
//! prints how many rows hold, and each row that does not.
#![tactic(auto)]

mod changes;
mod document_keys;
mod filter_documents;
mod filters;
mod groups;
mod keys;
mod levels;
mod orders;
mod outcomes;
mod pages;
mod path_bytes;
mod path_values;
mod paths;
mod projections;
mod refusals;
mod shape_documents;
mod statements;
mod update_words;

use crate::changes::Changes;
use crate::document_keys::DocumentKeys;
use crate::filter_documents::Faults;
use crate::filters::Filters;
use crate::groups::Grouped;
use crate::keys::{Keys, Spans};
use crate::levels::Levels;
use crate::orders::Orders;
use crate::pages::Pages;
use crate::path_bytes::Bytes;
use crate::path_values::Values;
use crate::paths::Paths;
use crate::projections::Projections;
use crate::refusals::{GroupSpecs, Refusals, Sorts};
use crate::statements::Statements;
use fixtures::check_file;
use std::io;

fn main(rt: HostRuntime) -> io::Result<()> {
    check_paths(&rt)?;
    check_filters(&rt)?;
    check_updates(&rt)?;
    check_shapes(&rt)
}

fn check_paths(rt: &HostRuntime) -> io::Result<()> {
    check_file(rt, "paths.txt", &mut Paths)?;
    check_file(rt, "path_bytes.txt", &mut Bytes)?;
    check_file(rt, "path_values.txt", &mut Values)
}

fn check_filters(rt: &HostRuntime) -> io::Result<()> {
    check_file(rt, "plain.txt", &mut Filters::new(rt.alloc()))?;
    check_file(rt, "filter_paths.txt", &mut Filters::new(rt.alloc()))?;
    check_file(rt, "ends.txt", &mut Filters::new(rt.alloc()))?;
    check_file(rt, "lists.txt", &mut Filters::new(rt.alloc()))?;
    check_file(rt, "names.txt", &mut Filters::new(rt.alloc()))?;
    check_file(rt, "manual.txt", &mut Pages::new(rt.alloc()))?;
    check_file(rt, "refused_filters.txt", &mut Faults)?;
    check_file(rt, "levels.txt", &mut Levels)?;
    check_file(rt, "keys.txt", &mut Keys)?;
    check_file(rt, "spans.txt", &mut Spans)?;
    check_file(rt, "asked.txt", &mut DocumentKeys)
}

fn check_updates(rt: &HostRuntime) -> io::Result<()> {
    check_file(rt, "changes.txt", &mut Changes)?;
    check_file(rt, "updates.txt", &mut Statements)?;
    check_file(rt, "upserts.txt", &mut Statements)?;
    check_file(rt, "inserts_and_deletes.txt", &mut Statements)
}

fn check_shapes(rt: &HostRuntime) -> io::Result<()> {
    check_file(rt, "projections.txt", &mut Projections)?;
    check_file(rt, "refused_projections.txt", &mut Refusals)?;
    check_file(rt, "orders.txt", &mut Orders)?;
    check_file(rt, "sorts.txt", &mut Sorts)?;
    check_file(rt, "grouped.txt", &mut Grouped)?;
    check_file(rt, "groups.txt", &mut GroupSpecs)
}
