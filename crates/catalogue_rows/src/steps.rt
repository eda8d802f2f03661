//! Steps of a catalogue.

ghost use Rattle.std.specs.Prelude.{◌≡◌, ◌<◌, ◌≤◌, ◌^◌, ◌+◌, IfSome};
ghost use Rattle.std.specs.List.{AllByRecursion};
ghost use Rattle.std.proofs.Props.{props};
ghost use Rattle.chunk_model.specs.Changes.{time_of};
ghost use Rattle.chunk_catalogue.specs.Catalogues.{IsNext, changes_of};
ghost use Rattle.chunk_catalogue.specs.Views.{change_view};

use crate::answers::is_fault;
use crate::tables::{chunk_holds, table_holds};
use crate::words::{read_id, read_key, read_namespace, read_range, read_shards, read_version};
use chunk_catalogue::{CatFault, Catalogue, Change, CommitWords};
use cluster_base::Time;
use fixtures::{RowFault, Rows, field, number};
use std::alloc::Global;

/// One step after another, each request at a later time than all before it; a change that is made is admitted.
/// `create | COLLECTION | TIME | ANSWER`, `split | COLLECTION | KEY | TIME | ANSWER`,
/// `commit | ID | COLLECTION | MIN, MAX | VERSION | FROM TO | TIME | ANSWER`; an answer is `changed`, `unchanged` or a refusal.
/// `table | COLLECTION | CHANGES | COUNT` and `chunk | COLLECTION | INDEX | MIN, MAX | VERSION | OWNERS`.
#[derive(Drop)]
pub struct Steps {
    alloc: Global,
    catalogue: Catalogue,
    // Above the time of each change.
    next: u64,
    ghost later: { AllByRecursion (λ y. time_of y < next) (changes_of catalogue) } by { Prim.hlevel props },
}

impl Rows for Steps {
    fn holds(&mut self, _alloc: Global, row: &str) -> Result<bool, RowFault> {
        let (verb, rest) = field(row);
        let (name, rest) = field(rest);
        match verb {
            "create" => self.create(name, rest),
            "split" => self.split(name, rest),
            "commit" => self.commit(name, rest),
            "table" => self.table(name, rest),
            "chunk" => self.chunk(name, rest),
            _ => Err(RowFault::Form),
        }
    }
}

impl Steps {
    pub fn new(alloc: Global) -> Steps {
        Steps {
            alloc,
            catalogue: Catalogue::new(alloc),
            next: 0,
        }
    }

    #[tactic(auto, using(crate::proofs::Later::later))]
    fn create(&mut self, name: &str, row: &str) -> Result<bool, RowFault> {
        let (at, wanted) = field(row);
        let namespace = read_namespace(self.alloc, name)?;
        let at = Time(number(at)?);
        if at.0 < self.next {
            return Err(RowFault::Form);
        }
        let change = self.catalogue.create(&namespace, at)?;
        self.take(at, change, wanted)
    }

    #[tactic(auto, using(crate::proofs::Later::later))]
    fn split(&mut self, name: &str, row: &str) -> Result<bool, RowFault> {
        let (key, rest) = field(row);
        let (at, wanted) = field(rest);
        let namespace = read_namespace(self.alloc, name)?;
        let key = read_key(key)?;
        let at = Time(number(at)?);
        if at.0 < self.next {
            return Err(RowFault::Form);
        }
        match self.catalogue.split(&namespace, &key, at) {
            Ok(change) => self.take(at, change, wanted),
            Err(fault) => is_fault(fault, wanted),
        }
    }

    #[tactic(auto, using(crate::proofs::Later::later))]
    fn commit(&mut self, id: &str, row: &str) -> Result<bool, RowFault> {
        let (words, rest) = self.words(id, row)?;
        let (at, wanted) = field(rest);
        let at = Time(number(at)?);
        if at.0 < self.next {
            return Err(RowFault::Form);
        }
        match self.catalogue.commit(&words, at) {
            Ok(change) => self.take(at, Some(change), wanted),
            Err(fault) => is_fault(fault, wanted),
        }
    }

    // Returns what a row requests, and the fields after that.
    fn words<'a>(&self, id: &str, row: &'a str) -> Result<(CommitWords, &'a str), RowFault> {
        let (name, rest) = field(row);
        let (range, rest) = field(rest);
        let (version, rest) = field(rest);
        let (shards, rest) = field(rest);
        let (from, to) = read_shards(shards)?;
        let words = CommitWords {
            id: read_id(id)?,
            namespace: read_namespace(self.alloc, name)?,
            range: read_range(range)?,
            version: read_version(version)?,
            from,
            to,
        };
        Ok((words, rest))
    }

    // Admits the change, if there is one, and returns whether that is wanted.
    fn take(&mut self, at: Time, change: Option<Change>, wanted: &str) -> Result<bool, RowFault>
        requires next { IfSome change (λ c. IsNext self.old.catalogue c) }
        requires time { IfSome change (λ c. time_of (change_view c.fields) ≡ at.0) }
        requires later { self.old.next ≤ at.0 }
    {
        let Some(change) = change else {
            return Ok(wanted == "unchanged");
        };
        let Some(next) = at.0.checked_add(1) else {
            return Err(RowFault::Form);
        };
        self.catalogue.admit(change);
        self.next = next;
        Ok(wanted == "changed")
    }

    fn table(&self, name: &str, row: &str) -> Result<bool, RowFault> {
        let namespace = read_namespace(self.alloc, name)?;
        table_holds(self.catalogue.table(&namespace), row)
    }

    fn chunk(&self, name: &str, row: &str) -> Result<bool, RowFault> {
        let namespace = read_namespace(self.alloc, name)?;
        chunk_holds(self.catalogue.table(&namespace), row)
    }
}
