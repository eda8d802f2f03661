//! What is printed for a line.

ghost use Rattle.std.specs.Prelude.{◌≡◌, ◌≤◌, ◌++◌, length, IsTrue, IfOk, OnOk, OnErr};
ghost use Rattle.outside.specs.Causes.{Rose};
ghost use Rattle.outside.specs.Streams.{Put};
ghost use Rattle.driver_steps.specs.Seats.{AreDurable, AreOpen, notes_of};
ghost use Rattle.pipe_driver.specs.Pieces.{PutInPart};
ghost use Rattle.sim_driver.specs.Scripts.{closed_lines, line_by, numbers_of, reply_lines, router_from};

use crate::link::Link;
use bson_values::Memory;
use driver_steps::{Seat, note_disks};
use node_traits::{Node, ToLink};
use outside::log::Log;
use outside::streams::Failed;
use outside::witness::Witness;
use pipe_driver::put_all;
use script_lines::{put_closed, put_reply};
use std::alloc::Global;

/// Returns the numbers of links, in order. Fails if out of memory.
pub fn numbers_of(alloc: Global, links: &[Link]) -> Result<Vec<u32>, Memory>
    ensures { IfOk result (λ numbers. numbers.items ≡ numbers_of links.now) }
{
    let mut numbers = Vec::new(alloc);
    'links: for link in links {
        match numbers.push(link.number()) {
            Ok(()) => {}
            Err(_) => return Err(Memory),
        }
    }
    Ok(numbers)
}

/// Returns the router whose link has this number.
fn router_of(numbers: &[u32], number: u32) -> Option<usize>
    ensures { result ≡ router_from 0 numbers.now number }
{
    'numbers: for router in 0..numbers.len() {
        if numbers[router] == number {
            return Some(router);
        }
    }
    None
}

/// Appends the line of a reply to a text, if it goes to one of the links. Fails if out of memory.
fn put_if(alloc: Global, numbers: &[u32], reply: &ToLink, text: &mut Vec<u8>) -> Result<(), Memory>
    ensures { OnOk result (text.new.items ≡ text.old.items ++ line_by (router_from 0 numbers.now reply.now.link) reply.now.bytes) }
{
    let Some(router) = router_of(numbers, reply.link) else {
        return Ok(());
    };
    match put_reply(alloc, router as u64, reply.bytes.as_slice(), text) {
        Ok(()) => Ok(()),
        Err(e) => Err(e),
    }
}

/// Appends the lines of the replies to the links to a text. Fails if out of memory.
fn put_lines(
    alloc: Global,
    numbers: &[u32],
    replies: &[ToLink],
    text: &mut Vec<u8>,
) -> Result<(), Memory>
    ensures { OnOk result (text.new.items ≡ text.old.items ++ reply_lines numbers.now replies.now) }
{
    'replies: for reply in replies {
        match put_if(alloc, numbers, reply, text) {
            Ok(()) => {}
            Err(e) => return Err(e),
        }
    }
    Ok(())
}

/// Returns the text that is printed for a line, which made these replies while links with these numbers were open, and closed that router's link or none.
/// Fails if out of memory.
pub fn text_of(
    alloc: Global,
    numbers: &[u32],
    replies: &[ToLink],
    closed: Option<u64>,
) -> Result<Vec<u8>, Memory>
    ensures { IfOk result (λ text. text.items ≡ reply_lines numbers.now replies.now ++ closed_lines closed) }
{
    let mut text = Vec::new(alloc);
    match put_lines(alloc, numbers, replies, &mut text) {
        Ok(()) => {}
        Err(e) => return Err(e),
    }
    let Some(router) = closed else {
        return Ok(text);
    };
    match put_closed(router, &mut text) {
        Ok(()) => Ok(text),
        Err(e) => Err(e),
    }
}

/// Writes a text after all disks were noted. All logs must be open: what the text says is durable before its first byte is written. Fails where
/// the sink does, after a prefix of the text.
pub fn put_text<N: Node, L: Log, K: Witness<L::Of>>(
    out: &mut K,
    seats: &Vec<Seat<N, L>>,
    text: &[u8],
) -> Result<(), Failed>
    requires open { AreOpen L.facts.is_open seats.now.items }
    ensures durable { AreDurable L.facts seats.now.items }
    ensures noted { IsTrue K.tells → K.noted out.new ≡ K.noted out.old ++ notes_of L.facts (length (K.held out.old)) seats.now.items }
    ensures put { OnOk result (Put K.tells (K.held out.old) text.now (K.held out.new)) }
    ensures prefix { OnErr result (PutInPart K.tells (K.held out.old) text.now (K.held out.new)) }
    ensures cause { OnErr result (Rose (K.fault_count out.old) (K.fault_count out.new)) }
    ensures calm { OnOk result (K.fault_count out.new ≡ K.fault_count out.old) }
    ensures later { K.fault_count out.old ≤ K.fault_count out.new }
{
    note_disks(out, seats);
    match put_all(out, text) {
        Ok(()) => Ok(()),
        Err(e) => Err(e),
    }
}
