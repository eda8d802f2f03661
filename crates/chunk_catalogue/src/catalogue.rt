//! The catalogue: the tables after all changes that were admitted, and which moves are committed.

ghost use Rattle.std.specs.Prelude.{◌≡◌, ◌<◌, ◌∷◌, ◌||◌, ℕ, List, [], true, IfErr, IfOk, IfSome, OnOk, Some};
ghost use Rattle.std.specs.Arc.{arc_value};
ghost use Rattle.std.specs.List.{AllByRecursion};
ghost use Rattle.std.specs.Option.{option_map};
ghost use Rattle.bson_model.specs.Tree.{Datum};
ghost use Rattle.cluster_base.specs.declared.identity.RequestId.{RequestId};
ghost use Rattle.chunk_model.specs.Changes.{is_committed, known_table, table_after, time_of};
ghost use Rattle.chunk_model.specs.Placement.{AreFitting, Covers, owner};
ghost use Rattle.chunk_model.specs.Requests.{chunk_answer, commit_answer, create_answer, split_answer};
ghost use Rattle.chunk_model.specs.Tables.{is_owner, owner_at};
ghost use Rattle.chunk_table.specs.Meanings.{chunk_view};
ghost use Rattle.chunk_table.specs.Whole.{IsWritableBound};
ghost use Rattle.value_model.specs.Keys.{is_key, key_bound};
ghost use Rattle.chunk_catalogue.specs.Admitted.{AreKnown, HasPlaceFor, commits_id, is_among, known-prop, newest_first};
ghost use Rattle.chunk_catalogue.specs.Faults.{IsFault};
ghost use Rattle.chunk_catalogue.specs.Moves.{committed_by, moved_answer};
ghost use Rattle.chunk_catalogue.specs.Views.{change_view, id_view, words_view};

use crate::change::{Change, ChangeFields, CommitWords};
use crate::fault::CatFault;
use bson_values::Memory;
use chunk_table::{Chunk, Owned, Table};
use cluster_base::{Namespace, NodeId, RequestId, Time};
use ghost_list::GhostList;
use route_cache::TableIndex;
use std::alloc::Global;
use std::collections::HashSet;
use std::sync::Arc;
use value_compare::Key;

/// The epoch of the first collection of a name. No collection is dropped, so there is no later one.
const FIRST_EPOCH: u64 = 1;

/// The tables of all collections, and the moves that are committed.
///
/// A caller gets a change for a request, writes its record, and admits it, which then can't fail.
#[derive(Drop)]
pub struct Catalogue {
    alloc: Global,
    tables: TableIndex,
    // The moves that are committed.
    committed: HashSet<RequestId>,
    // The changes that were admitted, oldest first, each with the table after it; for proofs only.
    admitted: GhostList<ChangeFields, Table>,
    ghost known: { AreKnown tables.tables (newest_first admitted.items) } by { known-prop tables.tables (newest_first admitted.items) },
    ghost settled: { (id : RequestId) → is_among id committed.keys ≡ is_committed (id_view id) (newest_first admitted.items) },
    ghost fitting: { ∥ AreFitting (newest_first admitted.items) ∥₁ },
}

// Returns whether the shard has the chunk now.
#[tactic(auto, using(crate::proofs::Answered::newest_owner, crate::proofs::Answered::no_owner))]
fn has(chunk: &Chunk, shard: NodeId) -> bool
    ensures { result ≡ is_owner shard.0 chunk.now.history }
{
    match chunk.history.newest() {
        Some(owner) => owner == shard,
        None => false,
    }
}

// Returns why the chunk of the requested range is not moved, if it is not.
fn judge(chunk: &Chunk, words: &CommitWords) -> Result<(), CatFault>
    ensures ok { OnOk result ((at : ℕ) → chunk_answer (words_view words.now) at (chunk_view chunk.now) ≡ moved_answer (words_view words.now) at) }
    ensures fault { IfErr result (λ fault. (at : ℕ) → IsFault fault (chunk_answer (words_view words.now) at (chunk_view chunk.now))) }
{
    if chunk.version != words.version {
        return Err(CatFault::VersionDiffers(chunk.version));
    }
    if !has(chunk, words.from) {
        return Err(CatFault::NotOwner);
    }
    if words.from == words.to {
        return Err(CatFault::SameShard);
    }
    Ok(())
}

// Remembers the id of a commit, for which there is room.
fn remember(committed: &mut HashSet<RequestId>, fields: ChangeFields)
    requires room { HasPlaceFor committed.old fields }
    ensures { (id : RequestId) → is_among id committed.new.keys ≡ (commits_id fields id || is_among id committed.old.keys) }
{
    if let ChangeFields::Commit { id, .. } = fields {
        let _ = committed.insert(id);
    }
}

impl Catalogue {
    ghost use Rattle.chunk_catalogue.specs.Catalogues.{IsNext, answer_of, changes_of};

    /// Returns a catalogue without collections.
    pub fn new(alloc: Global) -> Catalogue
        ensures { changes_of result ≡ [] }
    {
        Catalogue {
            alloc,
            tables: TableIndex::new(alloc),
            committed: HashSet::new(alloc),
            admitted: GhostList::new(),
        }
    }

    /// Returns the table of a collection after all changes, if there is one. Takes no memory.
    pub fn table(&self, namespace: &Namespace) -> Option<&Table>
        ensures table { option_map (λ table. table.now) result ≡ known_table namespace.now (changes_of self.now) }
        ensures cover { IfSome result (λ table. Covers table.now.chunks) }
        ensures owners { IfSome result (λ table. (key : Datum) (time : ℕ) → is_key key ≡ true
            → owner_at table.now key time ≡ owner namespace.now key time (changes_of self.now)) }
    {
        match self.shared_table(namespace) {
            Some(table) => Some(table),
            None => None,
        }
    }

    /// Returns the table of a collection after all changes, shared, if there is one. Takes no memory.
    pub fn shared_table(&self, namespace: &Namespace) -> Option<&Arc<Table, Global>>
        ensures table { option_map (λ table. arc_value table.now) result ≡ known_table namespace.now (changes_of self.now) }
        ensures cover { IfSome result (λ table. Covers (arc_value table.now).chunks) }
        ensures owners { IfSome result (λ table. (key : Datum) (time : ℕ) → is_key key ≡ true
            → owner_at (arc_value table.now) key time ≡ owner namespace.now key time (changes_of self.now)) }
    {
        self.tables.get(namespace)
    }

    /// Returns the change that creates a collection at `at`, and makes room for its table. `None` where it exists.
    ///
    /// # Errors
    /// `Memory` when out of memory.
    pub fn create(&mut self, namespace: &Namespace, at: Time) -> Result<Option<Change>, Memory>
        requires later { AllByRecursion (λ y. time_of y < at.0) (changes_of self.old) }
        ensures answer { IfOk result (λ change. answer_of change ≡ create_answer namespace.now at.0 (changes_of self.old)) }
        ensures next { IfOk result (λ change. IfSome change (λ c. IsNext self.new c)) }
        ensures time { IfOk result (λ change. IfSome change (λ c. time_of (change_view c.fields) ≡ at.0)) }
        ensures changes { changes_of self.new ≡ changes_of self.old }
    {
        if self.tables.get(namespace).is_some() {
            return Ok(None);
        }
        self.tables.reserve()?;
        let table = Table::first(self.alloc, namespace.copy()?, FIRST_EPOCH, at)?;
        let fields = ChangeFields::Create {
            namespace: namespace.copy()?,
            epoch: FIRST_EPOCH,
            at,
        };
        Ok(Some(Change {
            fields,
            table: Arc::new(self.alloc, table)?,
        }))
    }

    /// Returns the change that splits the chunk that has `middle` there, at `at`. `None` where a bound is at `middle`.
    ///
    /// # Errors
    /// `NoCollection` where there is no such collection. `Memory` when out of memory, and where a number of the table would pass the end of
    /// its type.
    pub fn split(
        &self,
        namespace: &Namespace,
        middle: &Key,
        at: Time,
    ) -> Result<Option<Change>, CatFault>
        requires later { AllByRecursion (λ y. time_of y < at.0) (changes_of self.now) }
        requires writable { IsWritableBound (key_bound middle.now) }
        ensures answer { IfOk result (λ change. answer_of change ≡ split_answer namespace.now middle.now at.0 (changes_of self.now)) }
        ensures fault { IfErr result (λ fault. IsFault fault (split_answer namespace.now middle.now at.0 (changes_of self.now))) }
        ensures next { IfOk result (λ change. IfSome change (λ c. IsNext self.now c)) }
        ensures time { IfOk result (λ change. IfSome change (λ c. time_of (change_view c.fields) ≡ at.0)) }
    {
        let Some(table) = self.tables.get(namespace) else {
            return Err(CatFault::NoCollection);
        };
        let Some(table) = table.split(self.alloc, middle)? else {
            return Ok(None);
        };
        let _key = middle.value();
        let fields = ChangeFields::Split {
            namespace: namespace.copy()?,
            middle: middle.copy()?,
            at,
        };
        Ok(Some(Change {
            fields,
            table: Arc::new(self.alloc, table)?,
        }))
    }

    /// Returns the change that gives the requested chunk to another shard from `at` on, and makes room for the id of the move.
    ///
    /// # Errors
    /// The first of these that is so: `Settled` where a move of that id is committed, with whether it is; `NoCollection` where there is no such
    /// collection; `NotABound` where no chunk has just that range; `VersionDiffers` where the chunk has another version, which it returns;
    /// `NotOwner` where `from` does not have it; `SameShard` where `from` is `to`. `Memory` when out of memory, and where a number of the table
    /// would pass the end of its type.
    pub fn commit(&mut self, words: &CommitWords, at: Time) -> Result<Change, CatFault>
        requires later { AllByRecursion (λ y. time_of y < at.0) (changes_of self.old) }
        ensures answer { IfOk result (λ c. answer_of (Some c) ≡ commit_answer (words_view words.now) at.0 (changes_of self.old)) }
        ensures fault { IfErr result (λ fault. IsFault fault (commit_answer (words_view words.now) at.0 (changes_of self.old))) }
        ensures next { IfOk result (IsNext self.new) }
        ensures time { IfOk result (λ c. time_of (change_view c.fields) ≡ at.0) }
        ensures changes { changes_of self.new ≡ changes_of self.old }
    {
        let table = self.moved(words, at)?;
        self.committed.reserve(1)?;
        let fields = ChangeFields::Commit {
            id: words.id,
            namespace: words.namespace.copy()?,
            range: words.range.copy()?,
            from: words.from,
            to: words.to,
            at,
        };
        Ok(Change {
            fields,
            table: Arc::new(self.alloc, table)?,
        })
    }

    // Returns the table after the requested move.
    fn moved(&self, words: &CommitWords, at: Time) -> Result<Table, CatFault>
        ensures answer { IfOk result (λ _. commit_answer (words_view words.now) at.0 (changes_of self.now) ≡ moved_answer (words_view words.now) at.0) }
        ensures table { IfOk result (λ table. table_after (committed_by (words_view words.now) at.0)
            (known_table words.now.namespace (changes_of self.now)) ≡ Some table) }
        ensures fault { IfErr result (λ fault. IsFault fault (commit_answer (words_view words.now) at.0 (changes_of self.now))) }
    {
        if self.committed.contains(&words.id) {
            return Err(CatFault::Settled(true));
        }
        let Some(table) = self.tables.get(&words.namespace) else {
            return Err(CatFault::NoCollection);
        };
        let Some(chunk) = table.chunk_with(&words.range) else {
            return Err(CatFault::NotABound);
        };
        judge(chunk, words)?;
        let owned = Owned {
            valid_after: at,
            shard: words.to,
        };
        Ok(table.moved(self.alloc, &words.range, words.from, owned)?)
    }

    /// Admits a change that may be the next: its table is from now on that of its collection, and the id of a move is known for good. Takes no
    /// memory.
    pub fn admit(&mut self, change: Change)
        requires next { IsNext self.old change }
        ensures { changes_of self.new ≡ change_view change.fields ∷ changes_of self.old }
    {
        let Change { fields, table } = change;
        self.admitted = self.admitted.with(&fields, &table);
        remember(&mut self.committed, fields);
        self.tables.put(table);
    }
}
