//! The number of bytes of a result, and whether it is too great (MongoDB manual, "MongoDB Limits and Thresholds").

ghost use Rattle.std.specs.Prelude.{◌≡◌, map, option_map};
ghost use Rattle.std.specs.Arc.{arc_value};
ghost use Rattle.pipeline_model.specs.Lengths.{documents_length, excess_of_answer, excess_of_documents, excess_of_half, rows_length};
ghost use Rattle.group_accum.specs.Sizes.{capped};
ghost use Rattle.pipeline_eval.specs.Rows.{rows_of};

use crate::rows::Rows;
use bson_values::{Document, MOST_BYTES_KEPT};
use std::alloc::Global;
use std::sync::Arc;

/// The greatest number of bytes that the documents of a result, or the rows of a half, have together.
pub const MOST_BYTES_ANSWERED: usize = 104_857_600;

// Returns the number of bytes of all documents, or the greatest `usize` where that is less.
fn total_size(documents: &[Arc<Document, Global>]) -> usize
    ensures { result ≡ capped (documents_length (map arc_value documents.now)) }
{
    let mut total = 0usize;
    for document in documents {
        total = total.saturating_add(document.size());
    }
    total
}

// Returns the number of bytes of the first document that is too long.
fn first_too_long(documents: &[Arc<Document, Global>]) -> Option<usize>
    ensures { result ≡ option_map capped (excess_of_documents (map arc_value documents.now)) }
{
    for document in documents {
        let size = document.size();
        if size > MOST_BYTES_KEPT {
            return Some(size);
        }
    }
    None
}

/// Returns the number of bytes of a result that is too long: that of all its documents, else that of the first that is too long. Only sizes are added.
pub(crate) fn excess_of_answer(documents: &[Arc<Document, Global>]) -> Option<usize>
    ensures { result ≡ option_map capped (excess_of_answer (map arc_value documents.now)) }
{
    let total = total_size(documents);
    if total > MOST_BYTES_ANSWERED {
        return Some(total);
    }
    first_too_long(documents)
}

// Returns the number of bytes of the rows of a half, or the greatest `usize` where that is less.
fn rows_size(rows: &Rows) -> usize
    ensures { result ≡ capped (rows_length (rows_of rows.now)) }
{
    match rows {
        Rows::Docs(documents) => total_size(documents),
        Rows::Partials(list) => list.size(),
        Rows::Counted(_) => 0,
    }
}

/// Returns the number of bytes of the rows of a half that are too long.
pub(crate) fn excess_of_rows(rows: &Rows) -> Option<usize>
    ensures { result ≡ option_map capped (excess_of_half (rows_of rows.now)) }
{
    let total = rows_size(rows);
    if total > MOST_BYTES_ANSWERED {
        return Some(total);
    }
    None
}
