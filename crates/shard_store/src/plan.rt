//! Plans of entries.

ghost use Rattle.std.specs.Prelude.{◌≡◌, ◌≤◌, ◌<◌, ◌+◌, ◌^◌, ◌++◌, ◌∷◌, ℕ, List, [], false, is_some, OnOk};
ghost use Rattle.std.specs.List.{list_any};
ghost use Rattle.value_compare.specs.Order.{same_value};
ghost use Rattle.node_model.specs.History.{Entry};

use crate::entry::Planned;
use bson_values::Memory;
use cluster_base::{RequestId, Time};
use command_replies::ClientNumber;
use std::alloc::Global;
use std::collections::BTreeMap;
use value_compare::Key;

/// The entries that a shard is about to make in one collection for one request, in order: each at a later time, of a greater index
/// and under another key than those before it. So none of them changes the outcome of another.
#[derive(Drop)]
pub struct EntryPlan {
    pub(crate) number: Option<ClientNumber>,
    pub(crate) id: RequestId,
    // The time of the last entry, or that after which the first comes.
    pub(crate) last: Time,
    // The least index that is free.
    pub(crate) free: u64,
    pub(crate) keys: BTreeMap<Key, ()>,
    pub(crate) planned: Vec<Planned>,
}

impl EntryPlan {
    ghost use Rattle.shard_store.specs.Plans.{IsNext, IsOf, IsPlan, planned_in, time_of};

    /// Returns a plan of no entries for a request with the number that its client gave, if it gave one. The first is to come after this time.
    pub fn new(alloc: Global, number: Option<ClientNumber>, id: RequestId, time: Time) -> EntryPlan
        ensures plan { (entries : List Entry) (last : ℕ) (namespace : List ℕ) → last ≤ time.0 → IsPlan entries last namespace result }
        ensures empty { planned_in result ≡ [] }
        ensures time { time_of result ≡ time.0 }
        ensures id { result.id ≡ id }
        ensures number { result.number ≡ number }
    {
        EntryPlan {
            number,
            id,
            last: time,
            free: 0,
            keys: BTreeMap::new(alloc),
            planned: Vec::new(alloc),
        }
    }

    /// Returns the entries, in order.
    pub fn planned(&self) -> &[Planned]
        ensures { result.now ≡ planned_in self.now }
    {
        &self.planned
    }

    /// Returns the time of the last entry, or that after which the first comes.
    pub fn time(&self) -> Time
        ensures { result.0 ≡ time_of self.now }
    {
        self.last
    }

    // Returns whether an entry has the key already.
    pub(crate) fn has_key(&self, key: &Key) -> bool
        ensures { (entries : List Entry) (last : ℕ) (namespace : List ℕ) → IsPlan entries last namespace self.now
            → result ≡ list_any (λ (p : Planned). same_value p.key key.now) (planned_in self.now) }
    {
        self.keys.contains_key(key)
    }

    // Appends an entry. Returns `Memory` if memory runs out, and the plan is of no more use then.
    pub(crate) fn push(&mut self, entry: Planned) -> Result<(), Memory>
        requires later { self.old.last.0 < entry.time.0 }
        requires index { self.old.free ≤ entry.statement.index }
        requires key { list_any (λ (p : Planned). same_value p.key entry.key) (planned_in self.old) ≡ false }
        ensures plan { (entries : List Entry) (last : ℕ) (namespace : List ℕ) → IsPlan entries last namespace self.old
            → IsNext entries last namespace entry → IsOf self.old.number self.old.id entry → OnOk result (IsPlan entries last namespace self.new) }
        ensures planned { OnOk result (planned_in self.new ≡ planned_in self.old ++ entry ∷ []) }
        ensures time { OnOk result (time_of self.new ≡ entry.time.0) }
        ensures id { self.new.id ≡ self.old.id }
        ensures number { self.new.number ≡ self.old.number }
    {
        self.keys.insert(entry.key.copy()?, ())?;
        self.last = entry.time;
        self.free = entry.statement.index as u64 + 1;
        self.planned.push(entry)?;
        Ok(())
    }
}
