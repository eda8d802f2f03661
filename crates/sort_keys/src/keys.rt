//! Sort keys: a part for each path of a specification, and their order.

ghost use Rattle.std.specs.Prelude.{◌≡◌, IfOk, if◌then◌else◌};
ghost use Rattle.std.specs.declared.cmp.Ordering.TheVariants.{Equal, Less};
ghost use Rattle.pipeline_model.specs.SortKeys.{order_keys, sort_key};

use crate::candidates::key_part;
use crate::parser::SortSpec;
use crate::parts::{KeyPart, compare_directed};
use bson_values::{Document, Memory};
use std::alloc::Global;
use std::cmp::Ordering;
use std::marker::Model;

/// The sort key of a document, to be stored with it: a part for each path, in order. It borrows nothing from the document.
#[derive(Drop)]
pub struct SortKey {
    parts: Vec<KeyPart>,
}

impl Model for SortKey {
    ghost use Rattle.std.specs.Prelude.{List};
    ghost use Rattle.pipeline_model.specs.SortKeys as model;
    ghost use Rattle.sort_keys.specs.Code.{key_code};
    ghost use Rattle.sort_keys.specs.View.{parts_of};

    ghost Value = { List model.KeyPart };

    ghost coded = { key_code };

    ghost view = { λ k. parts_of k.parts.items };
}

/// Returns the key of a document: for each path the part that comes first in its direction. Returns `Memory` if memory runs out.
pub fn sort_key(alloc: Global, spec: &SortSpec, document: &Document) -> Result<SortKey, Memory>
    ensures { IfOk result (λ k. k ≡ sort_key spec.now document.now) }
{
    let mut parts = Vec::new(alloc);
    for field in &spec.fields {
        let part = key_part(alloc, field, document)?;
        parts.push(part)?;
    }
    Ok(SortKey { parts })
}

/// Compares two keys: path by path, each in its direction. Keys of the specification have as many parts as it has paths; of others the shorter is less. Takes
/// no memory.
pub fn compare_keys(spec: &SortSpec, a: &SortKey, b: &SortKey) -> Ordering
    ensures { result ≡ order_keys spec.now a.now b.now }
{
    let mut parts = a.parts.iter();
    let mut others = b.parts.iter();
    for field in &spec.fields {
        let Some(part) = parts.next() else {
            return end_order(others.next().is_some());
        };
        let Some(other) = others.next() else {
            return Ordering::Greater;
        };
        match compare_directed(field.direction, part.as_part(), other.as_part()) {
            Ordering::Equal => {}
            apart => return apart,
        }
    }
    Ordering::Equal
}

// Compares a key that has ended with another that may have more parts.
fn end_order(goes_on: bool) -> Ordering
    ensures { result ≡ (if goes_on then Less else Equal) }
{
    if goes_on {
        Ordering::Less
    } else {
        Ordering::Equal
    }
}
