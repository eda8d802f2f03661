//! The number that a count returns.

ghost use Rattle.std.specs.Prelude.{◌≡◌, ◌<◌, ◌≤◌, ◌^◌, ◌∷◌, [], pos, codes, IfSome, map};
ghost use Rattle.std.specs.Arc.{arc_value};
ghost use Rattle.bson_values.specs.View.{datum_of};
ghost use Rattle.pipeline_model.specs.Runs.{count_documents};
ghost use Rattle.pipeline_model.specs.Groups.{count_value};

use crate::batches::DocumentList;
use bson_values::{Document, Value};

/// Returns the number that an int32 is, from 1 on.
fn short_number(n: i32) -> Option<u64>
    ensures is { IfSome result (λ k. n ≡ pos k) }
    ensures some { IfSome result (λ k. 0 < k) }
    ensures small { IfSome result (λ k. k < 2 ^ 31) }
{
    if n > 0 { Some(n as u64) } else { None }
}

/// Returns the number that an int64 outside int32 is, from 1 on.
fn long_number(n: i64) -> Option<u64>
    ensures is { IfSome result (λ k. n ≡ pos k) }
    ensures great { IfSome result (λ k. 2 ^ 31 ≤ k) }
    ensures small { IfSome result (λ k. k < 2 ^ 63) }
{
    if n >= 1 << 31 { Some(n as u64) } else { None }
}

/// Returns the number that a value is as a count of documents: from 1 on, and an int64 only where an int32 is too small.
#[tactic(auto, using(crate::proofs::Counts::count_short, crate::proofs::Counts::count_long))]
fn number_in(value: &Value) -> Option<u64>
    ensures is { IfSome result (λ n. datum_of value.now ≡ count_value n) }
    ensures some { IfSome result (λ n. 0 < n) }
    ensures small { IfSome result (λ n. n < 2 ^ 63) }
{
    match value {
        Value::Int32(n) => short_number(n.content),
        Value::Int64(n) => long_number(*n),
        _ => None,
    }
}

/// Returns the number in a document, if that is its only field.
fn number_told(document: &Document) -> Option<u64>
    ensures is { IfSome result (λ n. document.now ∷ [] ≡ count_documents (codes "n") n) }
    ensures small { IfSome result (λ n. n < 2 ^ 63) }
{
    let [field] = document.fields() else {
        return None;
    };
    if field.name.as_str() == "n" {
        number_in(&field.value)
    } else {
        None
    }
}

/// Returns the number that the stages of a count result in: 0 for no document, or that of one document. Returns none where they are not the stages of a
/// count.
pub fn count_told(documents: &DocumentList) -> Option<u64>
    ensures is { IfSome result (λ n. map arc_value documents.now.items ≡ count_documents (codes "n") n) }
    ensures small { IfSome result (λ n. n < 2 ^ 63) }
{
    match documents.as_slice() {
        [] => Some(0),
        [document] => number_told(document),
        _ => None,
    }
}
