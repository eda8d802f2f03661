//! The versions of the document under one key.

ghost use Rattle.std.specs.Prelude.{◌≡◌, ◌+◌, ◌<◌, ◌≤◌, ◌∷◌, ◌++◌, [], None, map, IfOk, IfSome, OnOk};
ghost use Rattle.std.specs.Arc.{arc_value};
ghost use Rattle.std.specs.List.Sorted.{IsNonDecreasingBy};
ghost use Rattle.std.specs.Option.{option_map};
ghost use Rattle.mvcc_collection.specs.Chains.{Past, document_left, last_time};
ghost use Rattle.mvcc_collection.specs.View.{dated};

use bson_values::{Document, Memory};
use cluster_base::Time;
use std::alloc::Global;
use std::marker::Model;
use std::sync::Arc;

/// What is stored under a key from a time on: a document, or none.
#[derive(Drop)]
pub(crate) struct Version {
    time: Time,
    document: Option<Arc<Document, Global>>,
}

/// The versions of the document under a key, by rising time. The last is stored apart, since most reads are of the present. It joins the others
/// when room is made for the next one, so that to put a version reaches no other memory.
#[derive(Drop)]
pub(crate) struct Chain {
    last: Option<Version>,
    older: Vec<Version>,
}

impl Model for Chain {
    ghost use Rattle.mvcc_collection.specs.Chains.{Past, past_code};

    ghost Value = { Past };

    ghost coded = { past_code };

    ghost use Rattle.mvcc_collection.specs.View.{AreRising, past_of};

    ghost view = { λ c. past_of c.last c.older };

    ghost invariant = { λ c. AreRising c.last c.older.items };
}

impl Chain {
    /// Returns a chain of no version, with room for one.
    pub(crate) fn new(alloc: Global) -> Chain
        ensures empty { result.versions ≡ [] }
        ensures room { 1 ≤ result.room }
    {
        Chain {
            last: None,
            older: Vec::new(alloc),
        }
    }

    /// Makes room for one version more. Returns `Memory` if memory runs out.
    pub(crate) fn reserve(&mut self) -> Result<(), Memory>
        ensures room { OnOk result (1 ≤ self.new.room) }
        ensures rooms { self.old.room ≤ self.new.room }
        ensures versions { self.new.versions ≡ self.old.versions }
    {
        self.older.reserve(1)?;
        if let Some(last) = self.last.take() {
            self.older.push_reserved(last);
        }
        Ok(())
    }

    /// Appends a version to the others, which are earlier. Takes one room, and no memory.
    pub(crate) fn push(&mut self, time: Time, document: Option<Arc<Document, Global>>)
        requires room { 1 ≤ self.old.room }
        requires later { IfSome (last_time self.old.versions) (λ t. t < time.0) }
        ensures versions { self.new.versions ≡ self.old.versions ++ (time.0, option_map arc_value document) ∷ [] }
        ensures room { self.old.room ≤ self.new.room + 1 }
    {
        self.last = Some(Version { time, document });
    }

    /// Returns the document of the last version up to the time, if that is one.
    pub(crate) fn document_at(&self, time: Time) -> Option<&Arc<Document, Global>>
        ensures { option_map (λ d. arc_value d.now) result ≡ document_left self.now.versions time.0 }
    {
        match &self.last {
            Some(last) if last.time.0 <= time.0 => last.document.as_ref(),
            _ => document_among(&self.older, time),
        }
    }

    /// Returns the time of the last version, if there is one.
    pub(crate) fn latest(&self) -> Option<Time>
        ensures { option_map (λ t. t.0) result ≡ last_time self.now.versions }
    {
        match &self.last {
            Some(last) => Some(last.time),
            None => latest_among(&self.older),
        }
    }
}

// Returns the time of the last of the versions, if there is one.
fn latest_among(versions: &[Version]) -> Option<Time>
    ensures { option_map (λ t. t.0) result ≡ last_time (map dated versions.now) }
{
    let last = versions.last()?;
    Some(last.time)
}

// Returns the document of the last of the versions up to the time, if that is one, found by halving.
fn document_among(versions: &[Version], time: Time) -> Option<&Arc<Document, Global>>
    requires { IsNonDecreasingBy (λ v. v.time.0) versions.now }
    ensures { option_map (λ d. arc_value d.now) result ≡ document_left (map dated versions.now) time.0 }
{
    let place = versions.partition_point(|version| version.time.0 <= time.0);
    if place == 0 {
        return None;
    }
    versions[place - 1].document.as_ref()
}
