//! The next batch, which is prepared while memory may run out and handed out later; and the section at the end.

ghost use Rattle.std.specs.Prelude.{◌≡◌, ◌++◌, ◌∷◌, [], List, None, MatchOption, IfOk, OnErr};
ghost use Rattle.std.specs.Prelude.{OnOk, is_some, filter, false, length, map, not, true, if◌then◌else◌};
ghost use Rattle.std.specs.BTreeMap.{get_by, is_at};
ghost use Rattle.std.specs.List.Sorted.{IsStrictlySortedBy};
ghost use Rattle.std.specs.Map.{keys_of, set_value};
ghost use Rattle.std.specs.Option.{option_map};
ghost use Rattle.bson_values.specs.Tree.{Datum};
ghost use Rattle.value_compare.specs.Bounds.{bound_of};
ghost use Rattle.value_compare.specs.Keys.{max_bound};
ghost use Rattle.value_compare.specs.Order.{order};
ghost use Rattle.history_model.specs.Documents.{document_under};
ghost use Rattle.record_model.specs.Moves as moves;
ghost use Rattle.shard_records.specs.Batches.{batch_view, moved_view};
ghost use Rattle.mvcc_collection.specs.Present.{rows_of};
ghost use Rattle.move_model.specs.Batches.{batch_of, cursor_after, document_bytes, documents_after, fitting};
ghost use Rattle.move_model.specs.Batches.{has_room, keys_of_members, members_bytes, members_next, source_after};
ghost use Rattle.move_model.specs.Sources.{has_key};
ghost use Rattle.critical_section.specs.Sections.{section_view};
ghost use Rattle.migration_source.specs.Changed.{changed_among};
ghost use Rattle.migration_source.specs.Fills.{IsCut, bound_at, members_of, members_under};
ghost use Rattle.migration_source.specs.Filled.{members_in};

use super::{Giving, Prepared};
use crate::filling::Filling;
use bson_values::Memory;
use cluster_base::{Namespace, Time};
use critical_section::Section;
use mvcc_collection::Collection;
use shard_records::{MoveBatch, MovedDocument};
use std::collections::BTreeMap;
use value_compare::{Bound, Key};

impl Giving {
    ghost use Rattle.migration_source.specs.Givings.{HasBatch, HasSection, IsAtEnd, has_place, id_of, ready_of, source_of, spare_of};

    /// Makes room for the next `next_batch` over the collection, if no `changed` comes between, and for the next `enter_section`; also
    /// where a batch is unanswered. Returns `Memory` if memory runs out, and after 2^64 - 1 batches, and then changes nothing.
    pub fn reserve_batch(&mut self, c: &Collection) -> Result<(), Memory>
        ensures batch { OnOk result (HasBatch self.new (rows_of c.now)) }
        ensures section { OnOk result (HasSection self.new) }
        ensures same { OnErr result (self.new ≡ self.old) }
        ensures source { source_of self.new ≡ source_of self.old }
        ensures rooms { (k : Datum) → has_place self.new k ≡ has_place self.old k }
        ensures id { id_of self.new ≡ id_of self.old }
    {
        let prepared = self.prepare(c)?;
        let spare = self.range.copy()?;
        self.prepared = Some(prepared);
        self.spare = Some(spare);
        Ok(())
    }

    /// Hands out the next batch, for which there is room over this collection; no batch is unanswered. It has the next documents after the
    /// cursor in key order and, where all of these found room, the present state of changed keys in key order, up to the first that
    /// finds no room. Takes no memory.
    pub fn next_batch(&mut self, _c: &Collection) -> MoveBatch
        requires room { HasBatch self.old (rows_of _c.now) }
        requires answered { (source_of self.old).unanswered ≡ false }
        ensures batch { batch_view result ≡ batch_of (source_of self.old) (rows_of _c.now) }
        ensures source { source_of self.new ≡ source_after (source_of self.old) (batch_of (source_of self.old) (rows_of _c.now)) }
        ensures ready { ready_of self.new ≡ None }
        ensures spare { spare_of self.new ≡ spare_of self.old }
        ensures rooms { (k : Datum) → has_place self.new k ≡ has_place self.old k }
        ensures id { id_of self.new ≡ id_of self.old }
    {
        let Some(prepared) = self.prepared.take() else {
            unreachable!()
        };
        let Prepared { batch, cursor } = prepared;
        unmark(&mut self.marks, batch.docs.as_slice());
        self.number = batch.number;
        self.cursor = cursor;
        self.unanswered = true;
        batch
    }

    /// Returns the critical section of the move, in which nothing waits. There is room for it, and the cursor reached the end of the range.
    /// Takes no memory.
    pub fn enter_section<C>(&mut self, namespace: Namespace, time: Time) -> Section<C>
        requires room { HasSection self.old }
        requires end { IsAtEnd (source_of self.old) }
        ensures section { section_view result ≡ record { namespace = namespace; range = (source_of self.old).range; time = time.0; parked = [] } }
        ensures source { source_of self.new ≡ source_of self.old }
        ensures ready { ready_of self.new ≡ ready_of self.old }
        ensures spare { spare_of self.new ≡ None }
        ensures rooms { (k : Datum) → has_place self.new k ≡ has_place self.old k }
        ensures id { id_of self.new ≡ id_of self.old }
    {
        let Some(range) = self.spare.take() else {
            unreachable!()
        };
        Section::enter(self.alloc, namespace, range, time)
    }

    // Returns the next batch over the collection with the cursor after it. Returns `Memory` if memory runs out, and after 2^64 - 1 batches.
    fn prepare(&self, c: &Collection) -> Result<Prepared, Memory>
        ensures { IfOk result (λ p. batch_view p.batch ≡ batch_of (source_of self.now) (rows_of c.now)) }
    {
        let Some(number) = self.number.checked_add(1) else {
            return Err(Memory);
        };
        let mut filling = Filling::new(self.alloc);
        let upto = self.fill(c, &mut filling)?;
        let cursor = upto.copy()?;
        let docs = filling.into_list();
        let batch = MoveBatch { number, upto, docs };
        Ok(Prepared { batch, cursor })
    }

    // Appends all members of the next batch, and returns the cursor after them. Returns `Memory` if memory runs out.
    fn fill(&self, c: &Collection, filling: &mut Filling) -> Result<Bound, Memory>
        requires { members_in filling.old ≡ [] }
        ensures members { OnOk result (members_in filling.new ≡ members_next (source_of self.now) (rows_of c.now)) }
        ensures upto { IfOk result (λ b. bound_of b
            ≡ cursor_after (source_of self.now) (rows_of c.now) (members_next (source_of self.now) (rows_of c.now))) }
    {
        let last = self.add_documents(c, filling)?;
        match last {
            Some(last) => Ok(last),
            None => {
                add_changed(&self.marks, c, filling)?;
                let end = self.range.max().copy()?;
                Ok(end)
            }
        }
    }

    // Appends the documents after the cursor that find room, up to the first that does not. Returns the bound at the last of them, or `None`
    // where all found room; `Memory` if memory runs out.
    fn add_documents(&self, c: &Collection, filling: &mut Filling) -> Result<Option<Bound>, Memory>
        requires { members_in filling.old ≡ [] }
        ensures { IfOk result (λ last. MatchOption last
            (members_in filling.new ≡ members_of (documents_after (source_of self.now) (rows_of c.now)))
            (λ b. IsCut (source_of self.now) (rows_of c.now) (members_in filling.new) (bound_of b))) }
    {
        let Some(start) = key_at(&self.cursor) else {
            return Ok(None);
        };
        let mut after = start;
        while let Some((key, document)) = c.next_document(&self.range, after) {
            let _value = key.value();
            let found = filling.add(key, Some(document))?;
            if !found {
                return Ok(Some(bound_at(after)?));
            }
            after = Some(key);
        }
        Ok(None)
    }
}

// Returns the key at the bound, if there is one; nothing where the bound is above all keys.
fn key_at(bound: &Bound) -> Option<Option<&Key>>
    ensures { MatchOption result (bound_of bound.now ≡ max_bound) (λ key. bound_at (option_map (λ k. k.now) key) ≡ bound_of bound.now) }
{
    match bound {
        Bound::MinKey => Some(None),
        Bound::At(key) => Some(Some(key)),
        Bound::MaxKey => None,
    }
}

// Returns the bound at the key, or the one below all keys where there is none. Returns `Memory` if memory runs out.
fn bound_at(key: Option<&Key>) -> Result<Bound, Memory>
    ensures { IfOk result (λ b. bound_of b ≡ bound_at (option_map (λ k. k.now) key.entry)) }
{
    match key {
        Some(key) => Ok(Bound::At(key.copy()?)),
        None => Ok(Bound::MinKey),
    }
}

// Appends the changed keys that find room, each with its present document, up to the first that does not. Returns `Memory` if memory
// runs out.
fn add_changed(
    marks: &BTreeMap<Key, bool>,
    c: &Collection,
    filling: &mut Filling,
) -> Result<(), Memory>
    ensures more { OnOk result ((found : List moves.MovedDocument) × (members_in filling.new ≡ members_in filling.old ++ found)) }
    ensures fit { OnOk result (fitting 0 0 (members_in filling.old ++ members_under (rows_of c.now) (changed_among marks.now.entries))
        ≡ members_in filling.new) }
{
    for (key, changed) in marks.iter() {
        let found = add_if(*changed, key, c, filling)?;
        if !found {
            return Ok(());
        }
    }
    Ok(())
}

// Appends the key with its present document, if it changed. Returns `false` where it changed and finds no room, and `Memory` if memory runs out.
fn add_if(changed: bool, key: &Key, c: &Collection, filling: &mut Filling) -> Result<bool, Memory>
    ensures added { IfOk result (λ found. found ≡ true
        → members_in filling.new ≡ members_in filling.old ++ members_under (rows_of c.now) (if changed then key.now ∷ [] else [])) }
    ensures full { IfOk result (λ found. found ≡ false → (changed ≡ true) × (members_in filling.new ≡ members_in filling.old)
        × (has_room (length (members_in filling.old)) (members_bytes (members_in filling.old)) (document_bytes (document_under key.now (rows_of c.now))) ≡ false)) }
{
    if changed {
        filling.add(key, c.get(key))
    } else {
        Ok(true)
    }
}

// Takes the keys of these members out of the changed ones. Their places stay.
fn unmark(marks: &mut BTreeMap<Key, bool>, docs: &[MovedDocument])
    ensures changed { changed_among marks.new.entries
        ≡ filter (λ key. not (has_key key (keys_of_members (map moved_view docs.now)))) (changed_among marks.old.entries) }
    ensures places { (k : Datum) → is_some (get_by (order k) marks.new) ≡ is_some (get_by (order k) marks.old) }
{
    let _places = marks.len();
    for moved in docs {
        unmark_one(marks, &moved.key);
    }
}

// Takes the key out of the changed ones, if it is there. Its place stays.
#[tactic(auto, using(crate::proofs::Unmarks::unplaced))]
fn unmark_one(marks: &mut BTreeMap<Key, bool>, key: &Key)
    ensures entries { marks.new.entries ≡ set_value (is_at (order key.now)) marks.old.entries false }
    ensures sorted { IsStrictlySortedBy order (keys_of marks.new.entries) }
{
    let _places = marks.len();
    if let Some(mark) = marks.get_mut(key) {
        *mark = false;
    }
}
