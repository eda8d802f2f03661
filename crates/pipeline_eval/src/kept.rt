//! The documents that the filter at the head of a half keeps.

ghost use Rattle.std.specs.Prelude.{◌≡◌, IfOk, filter, map};
ghost use Rattle.std.specs.Arc.{arc_value};
ghost use Rattle.query_model.specs.Holds.{holds};
ghost use Rattle.pipeline_lang.specs.Halves.{half_of};
ghost use Rattle.pipeline_model.specs.Halves.{kept_at_head};

use bson_values::{Document, Memory};
use match_expr::{Expr, holds, sieve_of};
use pipeline_lang::{Half, Stage};
use std::alloc::Global;
use std::sync::Arc;

// Returns the documents, each shared, or `Memory` if memory runs out.
fn share_found(
    alloc: Global,
    documents: &[&Arc<Document, Global>],
) -> Result<Vec<Arc<Document, Global>>, Memory>
    ensures { IfOk result (λ all. map arc_value all.items ≡ map (λ d. arc_value d.now) documents.now) }
{
    let mut all = Vec::with_capacity(alloc, documents.len())?;
    for document in documents {
        let shared = Arc::try_clone(document)?;
        all.push(shared)?;
    }
    Ok(all)
}

// Returns the documents without some of those that the filter drops. It tests a part of the filter, so that meanwhile the processor loads the next documents
// from memory. Takes no memory.
fn sifted<'a>(
    asked: &Expr,
    documents: Vec<&'a Arc<Document, Global>>,
) -> Vec<&'a Arc<Document, Global>>
    ensures { filter (holds asked.now) (map (λ d. arc_value d.now) result.items) ≡ filter (holds asked.now) (map (λ d. arc_value d.now) documents.entry.items) }
{
    let mut left = documents;
    if let Some(sieve) = sieve_of(asked) {
        left.retain(|document| sieve.lets_pass(document));
    }
    left
}

// Returns those that match the filter. Takes no memory.
fn passing<'a>(
    asked: &Expr,
    documents: Vec<&'a Arc<Document, Global>>,
) -> Vec<&'a Arc<Document, Global>>
    ensures { map (λ d. arc_value d.now) result.items ≡ filter (holds asked.now) (map (λ d. arc_value d.now) documents.entry.items) }
{
    let mut left = sifted(asked, documents);
    left.retain(|document| holds(asked, document));
    left
}

/// Returns the documents that the filter at the head of a half's stages keeps, where there is one, in this order. Each is shared, and what is dropped is only
/// read. Returns `Memory` if memory runs out.
pub fn share_kept(
    alloc: Global,
    half: &Half,
    documents: Vec<&Arc<Document, Global>>,
) -> Result<Vec<Arc<Document, Global>>, Memory>
    ensures { IfOk result (λ kept. map arc_value kept.items ≡ kept_at_head (half_of half.now).stages (map (λ d. arc_value d.now) documents.entry.items)) }
{
    match half.stages.stages().split_first() {
        Some((Stage::Match(asked), _rest)) => share_found(alloc, &passing(asked, documents)),
        _ => share_found(alloc, &documents),
    }
}
