//! Groups: a row for each key, while documents and rows of parts arrive.
#![tactic(auto, unfolding(crate::specs::GroupParts::spec_in, crate::specs::GroupParts::rows_in, crate::specs::GroupParts::documents_in))]

ghost use Rattle.std.specs.Prelude.{◌≡◌, ◌+◌, ◌++◌, ◌∷◌, [], IfOk, List, OnOk, map};
ghost use Rattle.std.specs.Arc.{arc_value};
ghost use Rattle.pipeline_model.specs.Groups.{IsJoined, PartialRow, documents_of, own_row};
ghost use Rattle.group_accum.specs.ShowResults.{Shows};
ghost use Rattle.group_accum.specs.View.{cell_of};

use crate::absorb::{Cell, absorb_row, empty_row};
use crate::documents::shown_row;
use crate::fault::GroupFault;
use crate::key::GroupKey;
use crate::own::own_row;
use crate::partials::{DOCUMENTS_OF_PART, PartialList};
use crate::spec::GroupSpec;
use bson_values::{Document, Memory};
use std::alloc::Global;
use std::collections::BTreeMap;
use std::sync::Arc;

/// The number of documents that all rows summarize is less than this.
const DOCUMENTS_OF_ALL: u64 = 1 << 62;

/// The groups of the documents that were added, and of those that the joined rows summarize: one row for each key, and no document (MongoDB manual,
/// "$group").
#[derive(Drop)]
pub struct Groups {
    alloc: Global,
    spec: Arc<GroupSpec, Global>,
    rows: BTreeMap<GroupKey, Vec<Cell>>,
    documents: u64,
}

impl Groups {
    ghost use Rattle.group_accum.specs.GroupParts.{documents_in, rows_in, spec_in};

    /// Returns groups without rows.
    pub fn new(alloc: Global, spec: Arc<GroupSpec, Global>) -> Groups
        ensures spec { spec_in result ≡ arc_value spec }
        ensures rows { rows_in result ≡ [] }
        ensures documents { documents_in result ≡ 0 }
    {
        Groups {
            alloc,
            spec,
            rows: BTreeMap::new(alloc),
            documents: 0,
        }
    }

    /// Adds a document: the rows are those of what arrived before, and of it. Returns `Memory` if memory runs out; then the groups have some of the rows, and
    /// must be dropped.
    pub fn add(&mut self, document: &Document) -> Result<(), Memory>
        ensures spec { spec_in self.new ≡ spec_in self.old }
        ensures rows { OnOk result ((rows : List PartialRow) → IsJoined (spec_in self.old) rows (rows_in self.old)
            → IsJoined (spec_in self.old) (rows ++ own_row (spec_in self.old) document.now ∷ []) (rows_in self.new)) }
        ensures documents { OnOk result (documents_in self.new ≡ documents_in self.old + 1) }
    {
        let documents = self.with_more(1)?;
        let (key, cells) = own_row(self.alloc, &self.spec, document)?;
        self.take_in(key, cells)?;
        self.documents = documents;
        Ok(())
    }

    /// Joins the rows of a part: the rows are those of what arrived before, and of them. Returns `Memory` if memory runs out; then the groups have some of
    /// the rows, and must be dropped.
    pub fn join(&mut self, rows: PartialList) -> Result<(), Memory>
        ensures spec { spec_in self.new ≡ spec_in self.old }
        ensures rows { OnOk result ((before : List PartialRow) → IsJoined (spec_in self.old) before (rows_in self.old)
            → IsJoined (spec_in self.old) (before ++ rows.rows) (rows_in self.new)) }
        ensures documents { OnOk result (documents_in self.new ≡ documents_in self.old + rows.documents) }
    {
        let PartialList {
            rows: mut rest,
            documents: more,
        } = rows;
        let documents = self.with_more(more)?;
        'rows: while let Some((key, cells)) = rest.pop_first() {
            self.take_in(key, cells)?;
        }
        self.documents = documents;
        Ok(())
    }

    /// Returns the rows, to be joined with those of other parts; no value is computed yet, so no sum overflows. Returns `Memory` if memory runs out, and
    /// where there are 2^58 documents or more.
    pub fn partial(self) -> Result<PartialList, Memory>
        ensures rows { IfOk result (λ p. p.rows ≡ rows_in self) }
        ensures documents { IfOk result (λ p. p.documents ≡ documents_in self) }
    {
        let Groups {
            alloc: _alloc,
            spec: _spec,
            rows,
            documents,
        } = self;
        if documents >= DOCUMENTS_OF_PART {
            return Err(Memory);
        }
        Ok(PartialList { rows, documents })
    }

    /// Returns the document of each row, in the order of keys. Returns `Overflow` where a sum is outside int64, and `Memory` if memory runs out.
    pub fn finish(self) -> Result<Vec<Arc<Document, Global>>, GroupFault>
        ensures shows { Shows (λ ds. map arc_value ds.items) result (documents_of (spec_in self) (rows_in self)) }
    {
        let Groups {
            alloc,
            spec,
            rows: mut rest,
            documents: _documents,
        } = self;
        let mut shown = Vec::new(alloc);
        'rows: while let Some((key, cells)) = rest.pop_first() {
            let document = shown_row(alloc, &spec, key, cells)?;
            shown.push(Arc::new(alloc, document)?)?;
        }
        Ok(shown)
    }

    // Returns the number of documents with `more` added, or `Memory` where it is 2^62 or more.
    fn with_more(&self, more: u64) -> Result<u64, Memory>
        ensures { IfOk result (λ n. n ≡ documents_in self.now + more) }
    {
        match self.documents.checked_add(more) {
            Some(documents) => within(documents),
            None => Err(Memory),
        }
    }

    // Absorbs a row: into the row of its key, or as a new row. Returns `Memory` if memory runs out; then cells may be lost.
    fn take_in(&mut self, key: GroupKey, cells: Vec<Cell>) -> Result<(), Memory>
        ensures spec { spec_in self.new ≡ spec_in self.old }
        ensures rows { OnOk result ((rows : List PartialRow) → IsJoined (spec_in self.old) rows (rows_in self.old)
            → IsJoined (spec_in self.old) (rows ++ record { key = key; cells = map cell_of cells.items } ∷ []) (rows_in self.new)) }
        ensures documents { documents_in self.new ≡ documents_in self.old }
    {
        if let Some(kept) = self.rows.get_mut(&key) {
            return absorb_row(self.alloc, &self.spec, kept, cells);
        }
        let mut own = empty_row(self.alloc, self.spec.fields())?;
        absorb_row(self.alloc, &self.spec, &mut own, cells)?;
        self.rows.insert(key, own)?;
        Ok(())
    }
}

// Returns the number of documents, or `Memory` where there are too many.
fn within(documents: u64) -> Result<u64, Memory>
    ensures { IfOk result (λ n. n ≡ documents) }
{
    if documents < DOCUMENTS_OF_ALL {
        Ok(documents)
    } else {
        Err(Memory)
    }
}
