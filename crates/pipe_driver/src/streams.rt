//! Taking from a source into a piece, and putting a whole piece into a sink.

ghost use Rattle.std.specs.Prelude.{◌≡◌, ◌<◌, ◌≤◌, IfOk, OnOk, OnErr, Err, vec_len};
ghost use Rattle.outside.specs.Causes.{Rose};
ghost use Rattle.outside.specs.Streams.{Put};
ghost use Rattle.pipe_driver.specs.Buffers.{AfterTaking, piece_room};
ghost use Rattle.pipe_driver.specs.Counts.{RoseWhere};
ghost use Rattle.pipe_driver.specs.Pieces.{PutInPart};
ghost use Rattle.pipe_driver.specs.declared.status.Status.TheVariants as statuses;

use crate::status::Status;
use outside::streams::{Failed, Sink, Source};
use std::alloc::{AllocError, Global};

/// The most bytes that are taken from a source at once.
pub const PIECE: usize = 65_536;

/// Puts the whole piece; what is taken in part is put on from where it stopped. Fails where the sink does, after a prefix
/// of the piece.
pub fn put_all<K: Sink>(out: &mut K, piece: &[u8]) -> Result<(), Failed>
    ensures put { OnOk result (Put K.tells (K.held out.old) piece.now (K.held out.new)) }
    ensures prefix { OnErr result (PutInPart K.tells (K.held out.old) piece.now (K.held out.new)) }
    ensures cause { OnErr result (Rose (K.fault_count out.old) (K.fault_count out.new)) }
    ensures calm { OnOk result (K.fault_count out.new ≡ K.fault_count out.old) }
    ensures later { K.fault_count out.old ≤ K.fault_count out.new }
    ensures noted { K.noted out.new ≡ K.noted out.old }
    ensures aside { K.beside out.new ≡ K.beside out.old }
{
    let mut at = 0;
    while at < piece.len() {
        at += out.put(&piece[at..])?;
    }
    Ok(())
}

/// Returns a piece that bytes are taken into, again and again: it is made once, and has room for `PIECE` bytes. Returns `Memory` if memory runs out.
pub fn new_piece(alloc: Global) -> Result<Vec<u8>, AllocError>
    ensures { IfOk result (λ piece. vec_len piece ≡ piece_room) }
{
    vec![in alloc; 0; PIECE]
}

/// Takes at most `room` bytes into the front of the piece, and returns their number. What was in the piece is overwritten, and what comes
/// after these bytes has no meaning.
///
/// # Errors
/// Nothing was taken then.
/// - `Status::InputEnded` if the source is at its end.
/// - `Status::ReadFailed` if the source met a fault, which is counted.
pub fn take_more<S: Source>(
    input: &mut S,
    piece: &mut Vec<u8>,
    room: usize,
) -> Result<usize, Status>
    requires some { 0 < room }
    requires fits { room ≤ vec_len piece.old }
    ensures taken { AfterTaking result piece.new.items S.tells (S.left input.old) (S.left input.new) }
    ensures most { IfOk result (λ count. count ≤ room) }
    ensures len { vec_len piece.new ≡ vec_len piece.old }
    ensures fault { RoseWhere (result ≡ Err statuses.ReadFailed) (S.fault_count input.old) (S.fault_count input.new) }
    ensures later { S.fault_count input.old ≤ S.fault_count input.new }
{
    let (front, _) = piece.split_at_mut(room);
    match input.take(front) {
        Ok(count) if count > 0 => Ok(count),
        Ok(_) => Err(Status::InputEnded),
        Err(Failed) => Err(Status::ReadFailed),
    }
}
