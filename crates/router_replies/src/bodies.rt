//! Bodies of requests, as a framer returns them.

ghost use Rattle.std.specs.Prelude.{◌≡◌, ◌≤◌, ℕ, IsTrue, Some};
ghost use Rattle.bson_values.specs.ReadFaults.{fault_offset};
ghost use Rattle.opmsg_model.specs.MessageSizes.{IsSmall};
ghost use Rattle.opmsg_frames.specs.Lists.{pairs_of};
ghost use Rattle.opmsg_model.specs.Messages.{most_bytes};
ghost use Rattle.router_replies.specs.Bodies.{AreSmallSequences, IsTakenBody};

use bson_values::{BsonFault, Document};
use opmsg_frames::{Body, Sequence};

/// The greatest number of levels of a document that is stored.
const MOST_LEVELS: usize = 100;

/// The greatest number of bytes of a document that is read.
const MOST_BYTES: usize = 240_000_000;

/// The greatest number of bytes of a message.
const MOST_MESSAGE_BYTES: usize = 48_000_000;

/// Returns whether a document is as small as those that are read.
fn is_small(document: &Document) -> bool
    ensures { IsTrue result → IsSmall document.now }
{
    document.levels() <= MOST_LEVELS && document.size() <= MOST_BYTES
}

/// Shows that the documents of sequences are as small as those that are read: each list guarantees it for its own.
#[tactic(auto, using(crate::proofs::TakenBodies::sequences_on))]
fn are_small_sequences(sequences: &[Sequence])
    ensures { AreSmallSequences (pairs_of sequences.now) }
{
    for sequence in sequences {
        let _documents = sequence.documents.as_slice();
    }
}

/// Returns whether the offset of a fault is within the longest message.
fn is_inside(fault: &BsonFault) -> bool
    ensures { IsTrue result → (offset : ℕ) × (fault_offset fault.now ≡ Some offset) × (offset ≤ most_bytes) }
{
    match fault.place() {
        Some(place) => place <= MOST_MESSAGE_BYTES,
        None => false,
    }
}

/// Returns whether the body of a request is one of the definitions, no larger than that of a message. All bodies from a framer are.
#[tactic(auto, using(crate::proofs::TakenBodies::read_taken, crate::proofs::TakenBodies::faulty_taken))]
pub fn is_taken(body: &Body) -> bool
    ensures { IsTrue result → IsTakenBody body.now }
{
    match body {
        Body::Read { doc, sequences } => {
            are_small_sequences(sequences.as_slice());
            is_small(doc)
        }
        Body::Faulty(fault) => is_inside(fault),
    }
}
