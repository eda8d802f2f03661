//! The durable part of a catalogue.

ghost use Rattle.std.specs.Prelude.{◌≡◌, ◌≤◌, ◌<◌, IfOk, Ok, Some, false};
ghost use Rattle.std.specs.List.{AllByRecursion};
ghost use Rattle.std.proofs.Props.{props};
ghost use Rattle.bson_model.specs.Limits.{IsWritable};
ghost use Rattle.chunk_catalogue.specs.Catalogues.{IsNext, changes_of};
ghost use Rattle.chunk_catalogue.specs.Views.{change_view};
ghost use Rattle.chunk_model.specs.Changes.{time_of};
ghost use Rattle.node_replay.specs.Durable.{empty_catalogue};
ghost use Rattle.node_replay.specs.Follow.{catalogue_follow, with_change};
ghost use Rattle.record_model.specs.RecordFormat.{key_document};
ghost use Rattle.record_model.specs.Records.{catalogue_ceiling_record, create_record, split_record};
ghost use Rattle.shard_records.specs.MoveViews.{split_view};

use crate::kind::{CatalogueRecord, Creation, is_of_epoch, kind_of};
use bson_values::Memory;
use chunk_catalogue::{CatFault, Catalogue, Change};
use cluster_base::{NodeId, Time};
use journal_replay::Replays;
use shard_records::{Record, SplitChange};
use std::alloc::Global;

/// What the journal of a catalogue says of it.
#[derive(Drop)]
pub struct CataloguePart {
    me: NodeId,
    // The greatest time in the journal.
    top: Time,
    catalogue: Catalogue,
    ghost past: { AllByRecursion (λ x. time_of x ≤ top.0) (changes_of catalogue) } by { Prim.hlevel props },
}

// Lets a change go that is not made.
fn refused<T: Drop>(_change: T) -> Result<bool, Memory>
    ensures { result ≡ Ok false }
{
    Ok(false)
}

impl CataloguePart {
    ghost use Rattle.catalogue_replay.specs.CatalogueParts.{Leads, creation_view, part_of};

    /// Returns what an empty journal says of the catalogue of this number.
    pub fn empty(alloc: Global, me: NodeId) -> CataloguePart
        ensures { part_of result ≡ empty_catalogue me.0 }
    {
        CataloguePart {
            me,
            top: Time(0),
            catalogue: Catalogue::new(alloc),
        }
    }

    /// Returns its parts: the number of the node, the greatest time in the journal, and the changes.
    pub fn into_parts(self) -> (NodeId, Time, Catalogue)
        ensures part { part_of self ≡ record { me = result.0.0; top = result.1.0; changes = changes_of result.2 } }
        ensures past { AllByRecursion (λ x. time_of x ≤ result.1.0) (changes_of result.2) }
    {
        (self.me, self.top, self.catalogue)
    }

    // Admits a change that is the next, at a time that is later than all before.
    fn admit(&mut self, at: Time, change: Change)
        requires next { IsNext self.old.catalogue change }
        requires later { self.old.top.0 < at.0 }
        requires time { time_of (change_view change.fields) ≡ at.0 }
        ensures { part_of self.new ≡ with_change (part_of self.old) at.0 (change_view change.fields) }
    {
        self.top = at;
        self.catalogue.admit(change);
    }

    // Adds a creation, and returns whether it may follow. Returns `Memory` if memory runs out.
    fn follow_creation(&mut self, creation: &Creation) -> Result<bool, Memory>
        ensures { IfOk result (λ b. Leads (catalogue_follow (part_of self.old) (create_record (creation_view creation.now))) (part_of self.new) b) }
    {
        if creation.at <= self.top {
            return Ok(false);
        }
        match self.catalogue.create(&creation.namespace, creation.at)? {
            Some(change) => {
                if is_of_epoch(&change, creation.epoch) {
                    self.admit(creation.at, change);
                    Ok(true)
                } else {
                    refused(change)
                }
            }
            None => Ok(false),
        }
    }

    // Adds a split, and returns whether it may follow. Returns `Memory` if memory runs out, and where a number of the table would pass the end of its type.
    fn follow_split(&mut self, split: &SplitChange) -> Result<bool, Memory>
        requires { IsWritable (key_document split.now.middle) }
        ensures { IfOk result (λ b. Leads (catalogue_follow (part_of self.old) (split_record (split_view split.now))) (part_of self.new) b) }
    {
        if split.at <= self.top {
            return Ok(false);
        }
        match self
            .catalogue
            .split(&split.namespace, &split.middle, split.at)
        {
            Ok(Some(change)) => {
                self.admit(split.at, change);
                Ok(true)
            }
            Ok(None) => Ok(false),
            Err(CatFault::NoCollection) => Ok(false),
            Err(_) => Err(Memory),
        }
    }

    // Adds a time that was returned.
    fn follow_ceiling(&mut self, time: Time)
        ensures { catalogue_follow (part_of self.old) (catalogue_ceiling_record time.0) ≡ Some (part_of self.new) }
    {
        self.top = self.top.max(time);
    }
}

impl Replays for CataloguePart {
    ghost use Rattle.catalogue_replay.specs.CatalogueParts.{part_of};
    ghost use Rattle.node_replay.specs.Durable.{durable_catalogue};

    ghost durable = { λ part. durable_catalogue (part_of part) };

    ghost time = { λ part. (part_of part).top };

    fn follow(&mut self, next: Record) -> Result<bool, Memory> {
        match kind_of(next) {
            CatalogueRecord::Creation(creation) => self.follow_creation(&creation),
            CatalogueRecord::Split(split) => self.follow_split(&split),
            CatalogueRecord::Ceiling(time) => {
                self.follow_ceiling(time);
                Ok(true)
            }
            CatalogueRecord::Other => Ok(false),
        }
    }
}
