//! The two parts of a pipeline that is split: the half that runs on each part of the documents, and the merge that joins their rows (MongoDB manual,
//! "Aggregation Pipeline and Sharded Collections").

use crate::stage::Pipeline;
use bson_values::Name;
use group_accum::GroupSpec;
use sort_keys::SortSpec;
use std::alloc::Global;
use std::sync::Arc;
use value_compare::SpanList;

/// What a half returns for the documents after its stages.
#[derive(Drop)]
pub enum HalfEnd {
    /// The documents.
    Docs,
    /// The rows that they are grouped into.
    Partials(Arc<GroupSpec, Global>),
    /// The number of the documents.
    Counted,
}

/// The half of a pipeline that runs on each part of the documents.
#[derive(Drop)]
pub struct Half {
    /// Ranges and points; no document with a key outside them adds anything.
    pub span: SpanList,
    /// The stages, one after the other.
    pub stages: Pipeline,
    /// What is returned after them.
    pub last: HalfEnd,
}

/// How the rows of the parts are joined.
#[derive(Drop)]
pub enum Joining {
    /// Documents in order.
    InOrder(Arc<SortSpec, Global>),
    /// Rows of groups, one for each key.
    Groups(Arc<GroupSpec, Global>),
    /// Numbers, as one document with their sum under this name.
    Counts(Name),
    /// Documents, one part after the other.
    AsTheyCome,
}

/// What joins the rows of the parts, and runs the stages after that.
#[derive(Drop)]
pub struct Merge {
    /// How the rows are joined.
    pub joining: Joining,
    /// The stages after that.
    pub stages: Pipeline,
}
