//! Links, and the acceptor that they come from.

use crate::answers::{done_word, failing_calls};
use crate::sinks::puts;
use crate::sources::takes;
use fixtures::{RowFault, Rows, field};
use outside::streams::{Acceptor, Failed};
use outside_memory::{MemAcceptor, MemLink};
use std::alloc::Global;

/// `FAILING | ANSWERS`: the results of an acceptor of one link, one of whose calls may fail: whether it listens, and twice whether it returns a link that
/// `talks`.
#[derive(Drop)]
pub struct Links;

impl Rows for Links {
    fn holds(&mut self, alloc: Global, row: &str) -> Result<bool, RowFault> {
        let (failing, wanted) = field(row);
        let mut acceptor = acceptor_of(alloc, failing)?;
        let found = three_answers(alloc, &mut acceptor)?;
        Ok(found.as_str() == wanted)
    }
}

// Returns a link of the bytes 01 02 03, of which the second take and the first write fail.
fn link_of(alloc: Global) -> Result<MemLink, RowFault> {
    let bytes = Vec::from_slice(alloc, &[1, 2, 3])?;
    let takes = failing_calls(alloc, "1")?;
    let puts = failing_calls(alloc, "0")?;
    Ok(MemLink::new(bytes, takes, puts))
}

// Returns an acceptor of one such link.
fn acceptor_of(alloc: Global, failing: &str) -> Result<MemAcceptor, RowFault> {
    let mut links = Vec::new(alloc);
    links.push(link_of(alloc)?)?;
    let failing = failing_calls(alloc, failing)?;
    Ok(MemAcceptor::new(links, failing))
}

fn three_answers(alloc: Global, acceptor: &mut MemAcceptor) -> Result<String, RowFault> {
    let listened = done_word(acceptor.listen(27017));
    let first = next_word(alloc, acceptor)?;
    let second = next_word(alloc, acceptor)?;
    Ok(format!(in alloc; "{listened}, {first}, {second}")?)
}

fn next_word(alloc: Global, acceptor: &mut MemAcceptor) -> Result<&'static str, RowFault> {
    match acceptor.next() {
        Ok(Some(link)) => talk_word(alloc, link),
        Ok(None) => Ok("none"),
        Err(Failed) => Ok("failed"),
    }
}

fn talk_word(alloc: Global, link: MemLink) -> Result<&'static str, RowFault> {
    let mut link = link;
    if gives(alloc, &mut link)? && holds(alloc, &mut link)? {
        Ok("talks")
    } else {
        Ok("is silent")
    }
}

// Returns whether the link gives its bytes, before and after a take that fails.
fn gives(alloc: Global, link: &mut MemLink) -> Result<bool, RowFault> {
    let taken = takes(alloc, link, "2 2 2")?;
    Ok(taken.as_str() == "2 0102, failed, 1 0307")
}

// Returns whether the link takes a piece, after a write that fails.
fn holds(alloc: Global, link: &mut MemLink) -> Result<bool, RowFault> {
    let put = puts(alloc, link, "'ab', 'ab'")?;
    Ok(put.as_str() == "failed, 2" && link.bytes() == b"ab".as_slice())
}
