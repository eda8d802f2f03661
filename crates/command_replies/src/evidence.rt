//! The evidence that is shown with errors.

ghost use Rattle.std.specs.Prelude.{◌≡◌, IfOk, IsTrue, OnOk, Some};
ghost use Rattle.bson_model.specs.Tree.{joined, field, no_fields};
ghost use Rattle.base_model.specs.Refusals as history;
ghost use Rattle.base_model.specs.ReplyParts.{evidence_shown};
ghost use Rattle.bson_values.specs.Names.{has_no_zero};
ghost use Rattle.bson_values.specs.View.{datum_of};
ghost use Rattle.command_replies.specs.Refusals.{evidence_view, shown_tries_view, shown_try_view, shown_version_view, try_fields};

use crate::parts::add;
use bson_values::{Aligned, Array, Document, Memory, Value};
use cluster_base::{NodeId, Time};
use std::alloc::Global;

/// The version of a table, as it is shown: which collection of its name, and how many moves.
#[derive(Clone, Copy, Debug, PartialEq, Eq)]
pub struct ShownVersion {
    pub epoch: u64,
    pub major: u64,
}

/// A try with an older table than the shard's: the version that was sent, and that of the shard.
#[derive(Clone, Copy, Debug, PartialEq, Eq)]
pub struct ShownTry {
    pub sent: ShownVersion,
    pub met: ShownVersion,
}

/// The evidence that is shown with an error.
#[derive(Debug, Drop)]
pub enum Evidence {
    Nothing,
    /// How many bytes are before a fault.
    Place { place: u64 },
    /// The greatest time that occurred.
    Greatest { time: Time },
    /// The cursor that was named.
    Cursor { cursor: i64 },
    /// When the request came and when it was refused, in milliseconds since 1970.
    Moments { arrived: u64, now: u64 },
    /// A node, and the count of its disk's faults.
    Disk { node: NodeId, faults: u64 },
    /// A node, and the count of its steps.
    Steps { node: NodeId, steps: u64 },
    Node { node: NodeId },
    /// The number of a transaction.
    Number { number: i64 },
    /// The time before which no history is kept.
    Oldest { time: Time },
    /// The number of bytes that were needed.
    Bytes { bytes: u64 },
    /// The tries that met a later table, in order.
    Tries(Vec<ShownTry>),
}

impl Evidence {
    /// Returns a copy, or `Memory` if memory runs out.
    pub fn copy(&self, alloc: Global) -> Result<Evidence, Memory>
        ensures { IfOk result (λ copy. evidence_view copy ≡ evidence_view self.now) }
    {
        Ok(match self {
            Evidence::Nothing => Evidence::Nothing,
            Evidence::Place { place } => Evidence::Place { place: *place },
            Evidence::Greatest { time } => Evidence::Greatest { time: *time },
            Evidence::Cursor { cursor } => Evidence::Cursor { cursor: *cursor },
            Evidence::Moments { arrived, now } => Evidence::Moments {
                arrived: *arrived,
                now: *now,
            },
            Evidence::Disk { node, faults } => Evidence::Disk {
                node: *node,
                faults: *faults,
            },
            Evidence::Steps { node, steps } => Evidence::Steps {
                node: *node,
                steps: *steps,
            },
            Evidence::Node { node } => Evidence::Node { node: *node },
            Evidence::Number { number } => Evidence::Number { number: *number },
            Evidence::Oldest { time } => Evidence::Oldest { time: *time },
            Evidence::Bytes { bytes } => Evidence::Bytes { bytes: *bytes },
            Evidence::Tries(tries) => Evidence::Tries(Vec::from_slice(alloc, tries.as_slice())?),
        })
    }
}

// Returns a count or a moment in 64 bits, at most the greatest of them.
fn count_shown(count: u64) -> Value
    ensures { datum_of result ≡ history.count_shown count }
{
    if count < 1 << 63 {
        Value::Int64(count as i64)
    } else {
        Value::Int64(i64::MAX)
    }
}

// Returns a node, in 32 bits, at most the greatest of them.
fn node_shown(node: NodeId) -> Value
    ensures { datum_of result ≡ history.node_shown node.0 }
{
    if node.0 < 1 << 31 {
        Value::Int32(Aligned::of(node.0 as i32))
    } else {
        Value::Int32(Aligned::of(i32::MAX))
    }
}

// Returns evidence of one field.
fn one(alloc: Global, name: &str, value: Value) -> Result<Option<Document>, Memory>
    requires { IsTrue (has_no_zero name.now) }
    ensures { IfOk result (λ o. o ≡ Some (field name.now (datum_of value) no_fields)) }
{
    let mut document = Document::new(alloc);
    add(&mut document, alloc, name, value)?;
    Ok(Some(document))
}

// Returns a document of two fields.
fn pair(
    alloc: Global,
    first: &str,
    value: Value,
    second: &str,
    other: Value,
) -> Result<Document, Memory>
    requires first { IsTrue (has_no_zero first.now) }
    requires second { IsTrue (has_no_zero second.now) }
    ensures { IfOk result (λ d. d ≡ field first.now (datum_of value) (field second.now (datum_of other) no_fields)) }
{
    let mut document = Document::new(alloc);
    add(&mut document, alloc, first, value)?;
    add(&mut document, alloc, second, other)?;
    Ok(document)
}

// Returns the document of a version.
fn version_document(alloc: Global, version: ShownVersion) -> Result<Value, Memory>
    ensures { IfOk result (λ value. datum_of value ≡ history.version_document (shown_version_view version)) }
{
    let epoch = count_shown(version.epoch);
    let major = count_shown(version.major);
    Ok(Value::Doc(pair(alloc, "epoch", epoch, "major", major)?))
}

// Returns the document of a try.
fn try_document(alloc: Global, shown: &ShownTry) -> Result<Document, Memory>
    ensures { IfOk result (λ d. d ≡ try_fields (shown_try_view shown.now)) }
{
    let sent = version_document(alloc, shown.sent)?;
    let met = version_document(alloc, shown.met)?;
    pair(alloc, "sent", sent, "met", met)
}

// Returns the documents of all tries.
fn tries_array(alloc: Global, tries: &[ShownTry]) -> Result<Array, Memory>
    ensures { IfOk result (λ a. a ≡ history.try_items (shown_tries_view tries.now)) }
{
    let mut items = Array::new(alloc);
    for shown in tries {
        items.push(Value::Doc(try_document(alloc, shown)?))?;
    }
    Ok(items)
}

// Returns evidence of two fields.
fn two(
    alloc: Global,
    first: &str,
    value: Value,
    second: &str,
    other: Value,
) -> Result<Option<Document>, Memory>
    requires first { IsTrue (has_no_zero first.now) }
    requires second { IsTrue (has_no_zero second.now) }
    ensures { IfOk result (λ o. o ≡ Some (field first.now (datum_of value) (field second.now (datum_of other) no_fields))) }
{
    Ok(Some(pair(alloc, first, value, second, other)?))
}

// Returns the document that is shown as evidence, if any.
fn evidence_document(alloc: Global, evidence: &Evidence) -> Result<Option<Document>, Memory>
    ensures { IfOk result (λ o. o ≡ history.evidence_document (evidence_view evidence.now)) }
{
    match evidence {
        Evidence::Nothing => Ok(None),
        Evidence::Place { place } => one(alloc, "place", count_shown(*place)),
        Evidence::Greatest { time } => one(alloc, "greatest", Value::Timestamp(time.0)),
        Evidence::Cursor { cursor } => one(alloc, "cursor", Value::Int64(*cursor)),
        Evidence::Moments { arrived, now } => two(
            alloc,
            "arrived",
            count_shown(*arrived),
            "now",
            count_shown(*now),
        ),
        Evidence::Disk { node, faults } => two(
            alloc,
            "node",
            node_shown(*node),
            "faults",
            count_shown(*faults),
        ),
        Evidence::Steps { node, steps } => two(
            alloc,
            "node",
            node_shown(*node),
            "steps",
            count_shown(*steps),
        ),
        Evidence::Node { node } => one(alloc, "node", node_shown(*node)),
        Evidence::Number { number } => one(alloc, "txnNumber", Value::Int64(*number)),
        Evidence::Oldest { time } => one(alloc, "oldest", Value::Timestamp(time.0)),
        Evidence::Bytes { bytes } => one(alloc, "bytes", count_shown(*bytes)),
        Evidence::Tries(tries) => one(alloc, "tries", Value::Array(tries_array(alloc, tries)?)),
    }
}

/// Appends the evidence, if there is any. Returns `Memory` if memory runs out.
pub(crate) fn add_evidence(
    document: &mut Document,
    alloc: Global,
    evidence: &Evidence,
) -> Result<(), Memory>
    ensures { OnOk result (document.new ≡ joined document.old (evidence_shown (evidence_view evidence.now))) }
{
    match evidence_document(alloc, evidence)? {
        Some(shown) => add(document, alloc, "evidence", Value::Doc(shown)),
        None => Ok(()),
    }
}
