//! The greatest time in a table.

ghost use Rattle.std.specs.Prelude.{◌≡◌, map};
ghost use Rattle.chunk_table.specs.Meanings.{chunk_view, owned_view};
ghost use Rattle.node_replay.specs.Replays as replays;

use chunk_table::{Chunk, Owned, Table};
use cluster_base::Time;

// Returns the greatest time from which on one of these has a chunk, or 0.
fn latest_owner(owners: &[Owned]) -> Time
    ensures { result.0 ≡ replays.latest_owner (map owned_view owners.now) }
{
    let mut latest = Time(0);
    for owned in owners {
        latest = latest.max(owned.valid_after);
    }
    latest
}

// Returns the greatest time from which on one of the owners of these chunks has one, or 0.
fn latest_of_chunks(chunks: &[Chunk]) -> Time
    ensures { result.0 ≡ replays.latest_of_chunks (map chunk_view chunks.now) }
{
    let mut latest = Time(0);
    for chunk in chunks {
        latest = latest.max(latest_owner(chunk.history.as_slice()));
    }
    latest
}

/// Returns the greatest time in a table: that from which on it has owners, or of one of these.
pub(crate) fn latest_in_table(table: &Table) -> Time
    ensures { result.0 ≡ replays.latest_in_table table.now }
{
    table.oldest().max(latest_of_chunks(table.chunks()))
}
