//! The plan of a step of the catalogue, before it is taken.

ghost use Rattle.std.specs.Prelude.{◌≡◌, ◌++◌, ◌∷◌, [], IfOk, None, OnOk, Some};
ghost use Rattle.std.specs.Arc.{arc_value};
ghost use Rattle.std.specs.Option.{option_map};
ghost use Rattle.chunk_catalogue.specs.Views.{change_view};
ghost use Rattle.config_node.specs.Plans.{IsWritableChange};
ghost use Rattle.config_node.specs.declared.plan.Answer.TheVariants.{Nothing};
ghost use Rattle.node_model.specs.CatalogueRows.{none_at};
ghost use Rattle.node_model.specs.Journal.{change_record};
ghost use Rattle.node_traits.specs.Effects.{AreReadable, spellings};
ghost use Rattle.node_traits.specs.Ids.{id_view};
ghost use Rattle.protocol_model.specs.Tables.{at_view};
ghost use Rattle.record_model.specs.RecordFormat.{spelled};
ghost use Rattle.shard_records.specs.Readable.{IsReadable};
ghost use Rattle.record_model.specs.Records.{catalogue_ceiling_record};
ghost use Rattle.shard_records.specs.MoveViews.{commit_view, split_view};

use bson_values::{Blob, Memory};
use chunk_catalogue::{Change, ChangeFields};
use chunk_table::Table;
use cluster_base::{Namespace, NodeId, RequestId, Time};
use protocol_model::At;
use shard_records::{
    CommitChange, SplitChange, write_catalogue_ceiling, write_commit, write_creation, write_split,
};
use std::alloc::Global;
use std::sync::Arc;
use value_compare::{Key, KeyRange};

/// How a request is answered.
#[derive(Drop)]
pub(crate) enum Answer {
    /// Not at all.
    Nothing,
    /// The request for a table: with the table, if there is one.
    Table(Option<Arc<Table, Global>>),
    /// The request for a split: whether there is such a collection.
    Split { found: bool },
}

/// What a step will write and answer, and the catalogue after it: at which time, and with which change.
#[derive(Drop)]
pub(crate) struct StepPlan {
    pub(crate) time: Time,
    pub(crate) change: Option<Change>,
    pub(crate) answer: Answer,
    pub(crate) records: Vec<Blob>,
}

impl StepPlan {
    /// Returns a plan that changes only the time.
    pub(crate) fn of_time(alloc: Global, time: Time) -> StepPlan
        ensures time { result.time ≡ time }
        ensures change { result.change ≡ None }
        ensures answer { result.answer ≡ Nothing }
        ensures records { result.records.items ≡ [] }
    {
        StepPlan {
            time,
            change: None,
            answer: Answer::Nothing,
            records: Vec::new(alloc),
        }
    }

    /// Returns the plan to store these records and answer at a time, without a change. Takes no memory.
    pub(crate) fn tell(time: Time, answer: Answer, records: Vec<Blob>) -> StepPlan
        ensures time { result.time ≡ time }
        ensures change { result.change ≡ None }
        ensures answer { result.answer ≡ answer }
        ensures records { result.records.items ≡ records.items }
    {
        StepPlan {
            time,
            change: None,
            answer,
            records,
        }
    }

    /// Returns the plan to make a change at a time, and to answer. Returns `Memory` if memory runs out.
    pub(crate) fn make(
        alloc: Global,
        change: Change,
        time: Time,
        answer: Answer,
    ) -> Result<StepPlan, Memory>
        requires { IsWritableChange (change_view change.fields) }
        ensures time { IfOk result (λ p. p.time ≡ time) }
        ensures change { IfOk result (λ p. p.change ≡ Some change) }
        ensures answer { IfOk result (λ p. p.answer ≡ answer) }
        ensures records { IfOk result (λ p. p.records.items ≡ spelled 1 (change_record (change_view change.fields)) ∷ []) }
        ensures readable { IfOk result (λ p. IsReadable (change_record (change_view change.fields))) }
    {
        match change_records(alloc, &change.fields) {
            Ok(records) => Ok(StepPlan {
                time,
                change: Some(change),
                answer,
                records,
            }),
            Err(fault) => Err(without(change, without(answer, fault))),
        }
    }
}

/// Lets a value go that is not used, and returns the other.
pub(crate) fn without<T: Drop, R>(_value: T, other: R) -> R
    ensures { result ≡ other }
{
    other
}

// Returns the list of one record, of these bytes, or `Memory` if memory runs out.
fn one_record(alloc: Global, bytes: &[u8]) -> Result<Vec<Blob>, Memory>
    ensures { IfOk result (λ records. records.items ≡ bytes.now ∷ []) }
{
    let record = Blob::of(alloc, bytes)?;
    let mut records = Vec::new(alloc);
    records.push(record)?;
    Ok(records)
}

// Returns the records of a ceiling, or `Memory` if memory runs out.
fn ceiling_records(alloc: Global, at: Time) -> Result<Vec<Blob>, Memory>
    ensures records { IfOk result (λ records. records.items ≡ spelled 1 (catalogue_ceiling_record at.0) ∷ []) }
    ensures readable { OnOk result (IsReadable (catalogue_ceiling_record at.0)) }
{
    let mut bytes = Vec::new(alloc);
    write_catalogue_ceiling(at, &mut bytes)?;
    one_record(alloc, &bytes)
}

/// Returns the records of an answer: the time at which there is no table, where one was requested for a time. Returns `Memory` if memory runs out.
pub(crate) fn none_records(
    alloc: Global,
    at: At,
    table: &Option<Arc<Table, Global>>,
) -> Result<Vec<Blob>, Memory>
    ensures records { IfOk result (λ records. records.items ≡ spellings (none_at (at_view at) (option_map (λ t. arc_value t) table.now))) }
    ensures readable { OnOk result (AreReadable (none_at (at_view at) (option_map (λ t. arc_value t) table.now))) }
{
    match (at, table) {
        (At::NoTime, _) => Ok(Vec::new(alloc)),
        (At::Time(_), Some(_)) => Ok(Vec::new(alloc)),
        (At::Time(at), None) => ceiling_records(alloc, at),
    }
}

// Returns the records of a change, or `Memory` if memory runs out.
fn change_records(alloc: Global, fields: &ChangeFields) -> Result<Vec<Blob>, Memory>
    requires { IsWritableChange (change_view fields.now) }
    ensures records { IfOk result (λ records. records.items ≡ spelled 1 (change_record (change_view fields.now)) ∷ []) }
    ensures readable { OnOk result (IsReadable (change_record (change_view fields.now))) }
{
    let mut bytes = Vec::new(alloc);
    put_change(fields, &mut bytes)?;
    one_record(alloc, &bytes)
}

// Returns a split as its record has it, with copies of its name and key, or `Memory` if memory runs out.
fn split_of(namespace: &Namespace, middle: &Key, at: Time) -> Result<SplitChange, Memory>
    ensures { IfOk result (λ split. split_view split ≡ record { namespace = namespace.now; middle = middle.now; at = at.0 }) }
{
    let namespace = namespace.copy()?;
    let middle = middle.copy()?;
    Ok(SplitChange {
        namespace,
        middle,
        at,
    })
}

// Returns a commit as its record has it, with copies of its name and range, or `Memory` if memory runs out.
fn commit_of(
    id: RequestId,
    namespace: &Namespace,
    range: &KeyRange,
    from: NodeId,
    to: NodeId,
    at: Time,
) -> Result<CommitChange, Memory>
    ensures { IfOk result (λ commit. commit_view commit ≡
        record { id = id_view id; namespace = namespace.now; range = range.now; from = from.0; to = to.0; at = at.0 }) }
{
    let namespace = namespace.copy()?;
    let range = range.copy()?;
    Ok(CommitChange {
        id,
        namespace,
        range,
        from,
        to,
        at,
    })
}

// Writes the record of a change after the bytes. Returns `Memory` if memory runs out.
fn put_change(fields: &ChangeFields, out: &mut Vec<u8>) -> Result<(), Memory>
    requires { IsWritableChange (change_view fields.now) }
    ensures ok { OnOk result (out.new.items ≡ out.old.items ++ spelled 1 (change_record (change_view fields.now))) }
    ensures readable { OnOk result (IsReadable (change_record (change_view fields.now))) }
{
    match fields {
        ChangeFields::Create {
            namespace,
            epoch,
            at,
        } => write_creation(namespace, *epoch, *at, out),
        ChangeFields::Split {
            namespace,
            middle,
            at,
        } => write_split(&split_of(namespace, middle, *at)?, out),
        ChangeFields::Commit {
            id,
            namespace,
            range,
            from,
            to,
            at,
        } => {
            let commit = commit_of(*id, namespace, range, *from, *to, *at)?;
            write_commit(&commit, out)
        }
    }
}
