//! Replies that are put.

ghost use Rattle.std.specs.Prelude.{◌≡◌, ◌<◌, ◌≤◌, ◌^◌, ◌++◌, length, IsTrue, OnOk, OnErr};
ghost use Rattle.outside.specs.Causes.{Rose};
ghost use Rattle.outside.specs.Streams.{Put};
ghost use Rattle.driver_steps.specs.Seats.{AreDurable, AreOpen, notes_of};
ghost use Rattle.pipe_driver.specs.Pieces.{PutInPart};
ghost use Rattle.pipe_driver.specs.Rounds.{bytes_of, number_behind, replies_after};

use crate::streams::put_all;
use driver_steps::{Seat, note_disks};
use node_traits::{Node, ToLink};
use outside::log::Log;
use outside::streams::{Failed, Sink};
use outside::witness::Witness;

/// Writes replies, one after another, after all disks were noted. All logs must be open: what a reply says is durable before its first byte is
/// written. Fails where the sink does, after a prefix of their bytes.
pub fn put_replies<N: Node, L: Log, K: Witness<L::Of>>(
    out: &mut K,
    seats: &Vec<Seat<N, L>>,
    replies: &[ToLink],
) -> Result<(), Failed>
    requires open { AreOpen L.facts.is_open seats.now.items }
    ensures durable { AreDurable L.facts seats.now.items }
    ensures noted { IsTrue K.tells → K.noted out.new ≡ K.noted out.old ++ notes_of L.facts (length (K.held out.old)) seats.now.items }
    ensures put { OnOk result (Put K.tells (K.held out.old) (bytes_of replies.now) (K.held out.new)) }
    ensures prefix { OnErr result (PutInPart K.tells (K.held out.old) (bytes_of replies.now) (K.held out.new)) }
    ensures cause { OnErr result (Rose (K.fault_count out.old) (K.fault_count out.new)) }
    ensures calm { OnOk result (K.fault_count out.new ≡ K.fault_count out.old) }
    ensures later { K.fault_count out.old ≤ K.fault_count out.new }
{
    note_disks(out, seats);
    match put_each(out, replies) {
        Ok(()) => Ok(()),
        Err(e) => Err(e),
    }
}

/// Writes replies, one after another. Fails where the sink does, after a prefix of their bytes.
fn put_each<K: Sink>(out: &mut K, replies: &[ToLink]) -> Result<(), Failed>
    ensures put { OnOk result (Put K.tells (K.held out.old) (bytes_of replies.now) (K.held out.new)) }
    ensures prefix { OnErr result (PutInPart K.tells (K.held out.old) (bytes_of replies.now) (K.held out.new)) }
    ensures cause { OnErr result (Rose (K.fault_count out.old) (K.fault_count out.new)) }
    ensures calm { OnOk result (K.fault_count out.new ≡ K.fault_count out.old) }
    ensures later { K.fault_count out.old ≤ K.fault_count out.new }
    ensures noted { K.noted out.new ≡ K.noted out.old }
{
    'replies: for reply in replies {
        match put_all(out, reply.bytes.as_slice()) {
            Ok(()) => {}
            Err(e) => return Err(e),
        }
    }
    Ok(())
}

/// Returns how many replies there are after one more request, of which `more` says whether it has moreToCome.
pub fn replied_after(more: bool, replied: u64) -> u64
    requires { replied < 2 ^ 63 }
    ensures { result ≡ replies_after more replied }
{
    if more { replied } else { replied + 1 }
}

/// Returns the number of the next reply, where so many were put; the first one has 1.
pub fn next_number(replied: u64) -> i32
    requires { replied < 2 ^ 63 }
    ensures { result ≡ number_behind replied }
{
    ((replied + 1) % (1 << 31)) as i32
}
