//! The members of a batch in a collection.

ghost use Rattle.std.specs.Prelude.{◌≡◌, ◌≤◌, ℕ, Some, OnOk, true, false, map, nat_le, if◌then◌else◌};
ghost use Rattle.std.specs.Option.{option_map};
ghost use Rattle.bson_values.specs.Tree.{Datum};
ghost use Rattle.move_model.specs.Sources.{has_key};
ghost use Rattle.move_model.specs.Batches.{keys_of_members};
ghost use Rattle.move_model.specs.Recipients.{overlay};
ghost use Rattle.mvcc_collection.specs.Collections.{at_in, last_in, room_in};
ghost use Rattle.shard_records.specs.Batches.{moved_view};
ghost use Rattle.migration_recipient.specs.Applied.{HasRoom, IsLater, IsPut, IsSame, is_earlier};

use bson_values::Memory;
use cluster_base::Time;
use mvcc_collection::Collection;
use shard_records::MovedDocument;

/// Makes room for a version of each key. Fails with `Memory` out of memory. Either way nothing else is to be seen of it.
pub(crate) fn reserve_all(docs: &[MovedDocument], c: &mut Collection) -> Result<(), Memory>
    ensures room { OnOk result (HasRoom c.new (map moved_view docs.now)) }
    ensures same { IsSame c.old c.new }
{
    for moved in docs {
        c.reserve(&moved.key)?;
    }
    Ok(())
}

/// Puts each document, or none, under its key at the time; of two with one key the later. They are taken from the last on, so a key that
/// has a version of that time is done.
pub(crate) fn apply_all(mut docs: Vec<MovedDocument>, c: &mut Collection, time: Time)
    requires room { HasRoom c.old (map moved_view docs.items) }
    requires later { IsLater c.old time.0 (map moved_view docs.items) }
    ensures documents { (k : Datum) (t : ℕ) → at_in c.new k t ≡ (if nat_le time.0 t then overlay (map moved_view docs.items) k (at_in c.old k t) else at_in c.old k t) }
    ensures last { (k : Datum) → last_in c.new k ≡ (if has_key k (keys_of_members (map moved_view docs.items)) then Some time.0 else last_in c.old k) }
    ensures rooms { (k : Datum) → has_key k (keys_of_members (map moved_view docs.items)) ≡ false → room_in c.old k ≤ room_in c.new k }
{
    while let Some(moved) = docs.pop() {
        apply_one(moved, c, time);
    }
}

// Puts the document, or none, under its key at the time, unless the key has a version of that time or a later one.
fn apply_one(moved: MovedDocument, c: &mut Collection, time: Time)
    requires room { is_earlier (last_in c.old moved.key) time.0 ≡ true → 1 ≤ room_in c.old moved.key }
    ensures put { is_earlier (last_in c.old moved.key) time.0 ≡ true → IsPut (moved_view moved) time.0 c.old c.new }
    ensures same { is_earlier (last_in c.old moved.key) time.0 ≡ false → IsSame c.old c.new }
{
    let MovedDocument { key, document } = moved;
    if is_earlier(c.last_at(&key), time) {
        c.put(&key, time, document);
    }
}

// Whether a time, if there is one, is earlier than another.
fn is_earlier(last: Option<Time>, time: Time) -> bool
    ensures { result ≡ is_earlier (option_map (λ t. t.0) last) time.0 }
{
    match last {
        Some(last) => last.0 < time.0,
        None => true,
    }
}
