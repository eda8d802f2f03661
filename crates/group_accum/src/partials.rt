//! The rows of one part of the documents, which are sent to where the parts are joined.

ghost use Rattle.std.specs.Prelude.{◌≡◌, IfOk, sum_by};
ghost use Rattle.pipeline_model.specs.Lengths.{row_length};
ghost use Rattle.group_accum.specs.Sizes.{capped};

use crate::absorb::Cell;
use crate::key::GroupKey;
use crate::sizes::rows_size;
use bson_values::Memory;
use std::clone::Clone;
use std::collections::BTreeMap;
use std::marker::Model;

/// The number of documents that the rows of a part summarize is less than this.
pub(crate) const DOCUMENTS_OF_PART: u64 = 1 << 58;

/// Rows, one for each key, in the order of keys, and the number of documents that they summarize (MongoDB manual, "Aggregation Pipeline and Sharded
/// Collections").
#[derive(Drop)]
pub struct PartialList {
    pub(crate) rows: BTreeMap<GroupKey, Vec<Cell>>,
    pub(crate) documents: u64,
}

impl Model for PartialList {
    ghost use Rattle.std.specs.Prelude.{◌<◌, ◌^◌};
    ghost use Rattle.group_accum.specs.Code.{partials_code};
    ghost use Rattle.group_accum.specs.Rows.{Partials, rows_of};

    ghost Value = { Partials };

    ghost coded = { partials_code };

    ghost view = { λ p. record { rows = rows_of p.rows.entries; documents = p.documents } };

    ghost invariant = { λ p. p.documents < 2 ^ 58 };
}

impl PartialList {
    /// Returns the number of bytes of the rows when they are sent, or the greatest `usize` where that is less.
    pub fn size(&self) -> usize
        ensures { result ≡ capped (sum_by row_length self.now.rows) }
    {
        rows_size(&self.rows)
    }

    /// Returns a copy of the rows, or `Memory` if memory runs out.
    pub fn copy(&self) -> Result<PartialList, Memory>
        ensures { IfOk result (λ copy. copy ≡ self.now) }
    {
        let rows = self.rows.clone()?;
        Ok(PartialList {
            rows,
            documents: self.documents,
        })
    }
}
