//! Checks rows of data on values: the bytes of documents, which are the same data, their levels, the order of values, keys and spans. For each file it prints
//! how many rows hold, and each row that does not.
#![tactic(auto)]

mod builders;
mod documents;
mod equality;
mod keys;
mod large;
mod levels;
mod order;
mod spans;

use crate::builders::Built;
use crate::documents::{Documents, Prefixes};
use crate::equality::Equality;
use crate::keys::{KeyTypes, Keys};
use crate::large::{compare_deep, compare_long};
use crate::levels::Levels;
use crate::order::{Classes, Sorted};
use crate::spans::{Bounds, Spans};
use bson_values::{one_fault, one_spelling};
use fixtures::check_file;
use std::io;

fn main(rt: HostRuntime) -> io::Result<()> {
    one_spelling();
    one_fault();
    check_documents(&rt)?;
    check_order(&rt)?;
    compare_long(&rt)?;
    compare_deep(&rt)
}

fn check_documents(rt: &HostRuntime) -> io::Result<()> {
    check_file(rt, "documents.txt", &mut Documents)?;
    check_file(rt, "faults.txt", &mut Documents)?;
    check_file(rt, "prefixes.txt", &mut Prefixes)?;
    check_file(rt, "built.txt", &mut Built)?;
    check_file(rt, "equality.txt", &mut Equality)?;
    check_file(rt, "levels.txt", &mut Levels)
}

fn check_order(rt: &HostRuntime) -> io::Result<()> {
    check_file(rt, "classes.txt", &mut Classes)?;
    check_file(rt, "sorted.txt", &mut Sorted::new(rt.alloc()))?;
    check_file(rt, "keys.txt", &mut Keys)?;
    check_file(rt, "key_types.txt", &mut KeyTypes)?;
    check_file(rt, "bounds.txt", &mut Bounds::new(rt.alloc()))?;
    check_file(rt, "spans.txt", &mut Spans)
}
