//! A batch while it is filled.

ghost use Rattle.std.specs.Prelude.{◌≡◌, ◌+◌, ◌-◌, ◌^◌, ◌++◌, ◌∷◌, ◌||◌, ◌&&◌, ◌==◌, [], IfOk, length, map, min, nat_le, nat_lt, if◌then◌else◌};
ghost use Rattle.std.specs.Arc.{arc_value};
ghost use Rattle.std.specs.Option.{option_map};
ghost use Rattle.move_model.specs.Batches.{document_bytes, has_room, members_bytes, most_bytes, most_keys, moved};
ghost use Rattle.shard_records.specs.Batches.{moved_view};
ghost use Rattle.migration_source.specs.Fills.{AllFit, fit-prop};

use bson_values::{Document, Memory};
use shard_records::{MovedDocument, MovedList};
use std::alloc::Global;
use std::sync::Arc;
use value_compare::Key;

/// The most keys of a batch.
const MOST_KEYS: usize = 128;

/// The most bytes of documents of a batch of more than one key.
const MOST_BYTES: usize = 4_194_304;

/// The members of a batch so far, and how many bytes their documents have.
#[derive(Drop)]
pub(crate) struct Filling {
    docs: Vec<MovedDocument>,
    bytes: usize,
    ghost counted: { bytes ≡ min (members_bytes (map moved_view docs.items)) (2 ^ 64 - 1) },
    ghost fit: { AllFit (map moved_view docs.items) } by { fit-prop (map moved_view docs.items) },
}

impl Filling {
    ghost use Rattle.migration_source.specs.Filled.{members_in};

    /// Returns a batch of no members. Takes no memory.
    pub(crate) fn new(alloc: Global) -> Filling
        ensures { members_in result ≡ [] }
    {
        Filling {
            docs: Vec::new(alloc),
            bytes: 0,
        }
    }

    /// Appends a member, its document shared, where it finds room after the others, and returns whether it does. Returns `Memory` if memory
    /// runs out.
    pub(crate) fn add(
        &mut self,
        key: &Key,
        document: Option<&Arc<Document, Global>>,
    ) -> Result<bool, Memory>
        ensures room { IfOk result (λ found. found ≡ has_room (length (members_in self.old)) (members_bytes (members_in self.old))
            (document_bytes (option_map (λ d. arc_value d.now) document.entry))) }
        ensures members { IfOk result (λ found. members_in self.new
            ≡ (if found then members_in self.old ++ moved key.now (option_map (λ d. arc_value d.now) document.entry) ∷ [] else members_in self.old)) }
    {
        let bytes = self.bytes.saturating_add(bytes_of(document));
        if !has_room(self.docs.len(), bytes) {
            return Ok(false);
        }
        self.docs.push(member(key, document)?)?;
        self.bytes = bytes;
        Ok(true)
    }

    /// Returns the members, in order. Takes no memory.
    pub(crate) fn into_list(self) -> MovedList
        ensures { result ≡ members_in self }
    {
        MovedList::of(self.docs)
    }
}

// Returns whether a member finds room after so many others, where their documents with its own have so many bytes.
fn has_room(keys: usize, bytes: usize) -> bool
    ensures { result ≡ ((keys == 0) || (nat_lt keys most_keys && nat_le bytes most_bytes)) }
{
    keys == 0 || (keys < MOST_KEYS && bytes <= MOST_BYTES)
}

// Returns how many bytes a document has, none of them where there is no document.
fn bytes_of(document: Option<&Arc<Document, Global>>) -> usize
    ensures { result ≡ min (document_bytes (option_map (λ d. arc_value d.now) document.entry)) (2 ^ 64 - 1) }
{
    match document {
        Some(document) => document.size(),
        None => 0,
    }
}

// Returns a member, its document shared. Returns `Memory` if memory runs out.
fn member(key: &Key, document: Option<&Arc<Document, Global>>) -> Result<MovedDocument, Memory>
    ensures { IfOk result (λ m. moved_view m ≡ moved key.now (option_map (λ d. arc_value d.now) document.entry)) }
{
    let key = key.copy()?;
    let document = match document {
        Some(document) => Some(Arc::try_clone(document)?),
        None => None,
    };
    Ok(MovedDocument { key, document })
}
