//! What changes make of chunks: one is split, or gets another owner (MongoDB manual, "Split Chunks in a Sharded Cluster" and
//! "Sharded Cluster Balancer", chunk migration procedure).

ghost use Rattle.std.specs.Prelude.{◌≡◌, ◌<◌, ◌^◌, ◌∷◌, IfOk, List, length, map, true};
ghost use Rattle.std.specs.List.{AllByRecursion};
ghost use Rattle.std.specs.Option.{option_map};
ghost use Rattle.std.specs.Ordering.{is_eq};
ghost use Rattle.std.specs.declared.cmp.Ordering.TheVariants.{Less};
ghost use Rattle.bson_values.specs.View.{datum_of};
ghost use Rattle.value_compare.specs.Bounds.{bound_of};
ghost use Rattle.value_model.specs.Keys.{key_bound, order_bounds};
ghost use Rattle.chunk_model.specs.Tables as tables;
ghost use Rattle.chunk_model.specs.Changes.{can_split, chunk_with, greatest_minor, lower_half, moved_chunk, same_range, split_chunks, strictly_inside, upper_half, with_lowest};
ghost use Rattle.chunk_table.specs.Copies.{left_to_move};
ghost use Rattle.chunk_table.specs.Meanings.{chunk_view, owned_view, version_view};
ghost use Rattle.chunk_table.specs.Whole.{IsWritableBound, IsWritableChunk};

use crate::chunk::{Chunk, Owned, OwnedList};
use crate::version::Version;
use bson_values::Memory;
use cluster_base::NodeId;
use std::alloc::Global;
use std::cmp::Ordering;
use value_compare::{Bound, Key, KeyRange};

// Returns whether a bound is at a key.
#[tactic(auto, using(crate::proofs::Halves::no_key_is_least, crate::proofs::Halves::no_key_is_greatest))]
fn is_at_key(bound: &Bound, key: &Key) -> bool
    ensures { result ≡ is_eq (order_bounds (bound_of bound.now) (key_bound key.now)) }
{
    match bound {
        Bound::At(own) => own == key,
        Bound::MinKey => {
            let _key = key.value();
            false
        }
        Bound::MaxKey => {
            let _key = key.value();
            false
        }
    }
}

// Returns whether the range has the key, and does not begin with it.
#[tactic(auto, using(crate::proofs::Halves::within))]
fn is_strictly_inside(range: &KeyRange, key: &Key) -> bool
    ensures { result ≡ strictly_inside key.now range.now }
{
    range.contains(key) && !is_at_key(range.min(), key)
}

/// Returns whether one of the chunks can be split at the key.
pub(crate) fn can_split(chunks: &[Chunk], key: &Key) -> bool
    ensures { result ≡ can_split key.now (map chunk_view chunks.now) }
{
    for chunk in chunks {
        if is_strictly_inside(&chunk.range, key) {
            return true;
        }
    }
    false
}

// Returns the greatest minor number of the chunks with the major number; 0 where there is none.
fn greatest_minor(chunks: &[Chunk], major: u64) -> u64
    ensures { result ≡ greatest_minor 0 major (map chunk_view chunks.now) }
{
    let mut greatest = 0;
    for chunk in chunks {
        let version = chunk.version;
        if version.major == major && version.minor > greatest {
            greatest = version.minor;
        }
    }
    greatest
}

// Returns the range from a bound to one above it.
fn range_between(min: Bound, max: Bound) -> KeyRange
    requires { order_bounds (bound_of min) (bound_of max) ≡ Less }
    ensures { result ≡ record { min = bound_of min; max = bound_of max } }
{
    let Some(range) = KeyRange::new(min, max) else {
        unreachable!()
    };
    range
}

// Returns the halves of a chunk that can be split at the key. Fails if memory runs out, and where a minor number would pass 2^64 - 1.
#[tactic(auto, using(crate::proofs::Halves::above_least, crate::proofs::Halves::below_greatest))]
fn halves(alloc: Global, chunk: &Chunk, middle: &Key, minor: u64) -> Result<(Chunk, Chunk), Memory>
    requires inside { strictly_inside middle.now chunk.now.range ≡ true }
    ensures lower { IfOk result (λ x. chunk_view x.0 ≡ lower_half middle.now minor (chunk_view chunk.now)) }
    ensures upper { IfOk result (λ x. chunk_view x.1 ≡ upper_half middle.now minor (chunk_view chunk.now)) }
{
    let Some(greater) = minor.checked_add(2) else {
        return Err(Memory);
    };
    let below = range_between(chunk.range.min().copy()?, Bound::At(middle.copy()?));
    let above = range_between(Bound::At(middle.copy()?), chunk.range.max().copy()?);
    let lower = Chunk {
        range: below,
        version: Version {
            epoch: chunk.version.epoch,
            major: chunk.version.major,
            minor: minor + 1,
        },
        history: chunk.history.copy(alloc)?,
    };
    let upper = Chunk {
        range: above,
        version: Version {
            epoch: chunk.version.epoch,
            major: chunk.version.major,
            minor: greater,
        },
        history: chunk.history.copy(alloc)?,
    };
    Ok((lower, upper))
}

/// Returns the chunks, of which the one that can be split at the key is its halves. Fails if memory runs out.
pub(crate) fn split_chunks(
    alloc: Global,
    chunks: &[Chunk],
    middle: &Key,
) -> Result<Vec<Chunk>, Memory>
    ensures { IfOk result (λ split. map chunk_view split.items ≡ split_chunks middle.now (map chunk_view chunks.now) (map chunk_view chunks.now)) }
{
    let mut split = Vec::with_capacity(alloc, chunks.len())?;
    for chunk in chunks {
        if is_strictly_inside(&chunk.range, middle) {
            let minor = greatest_minor(chunks, chunk.version.major);
            let (lower, upper) = halves(alloc, chunk, middle, minor)?;
            split.push(lower)?;
            split.push(upper)?;
        } else {
            split.push(chunk.copy(alloc)?)?;
        }
    }
    Ok(split)
}

// Returns whether two ranges have the same bounds.
fn is_same_range(range: &KeyRange, other: &KeyRange) -> bool
    ensures { result ≡ same_range range.now other.now }
{
    range.min().compare(other.min()) == Ordering::Equal
        && range.max().compare(other.max()) == Ordering::Equal
}

// Returns a copy of the chunk; where it has the range, with the version and one owner more. Fails if memory runs out, and where a journal could
// not encode the number of its owners.
fn moved_chunk(
    alloc: Global,
    chunk: &Chunk,
    range: &KeyRange,
    version: Version,
    owned: Owned,
) -> Result<Chunk, Memory>
    ensures chunk { IfOk result (λ c. chunk_view c ≡ moved_chunk range.now (version_view version) (owned_view owned) (chunk_view chunk.now)) }
    ensures count { length chunk.now.history < 2 ^ 32 → IfOk result (λ c. length c.history < 2 ^ 32) }
{
    if !is_same_range(&chunk.range, range) {
        return chunk.copy(alloc);
    }
    let history = chunk.history.followed_by(alloc, owned)?;
    Ok(Chunk {
        range: chunk.range.copy()?,
        version,
        history,
    })
}

/// Returns the chunk that has just this range, if one has it.
pub(crate) fn chunk_with<'a>(chunks: &'a [Chunk], range: &KeyRange) -> Option<&'a Chunk>
    ensures { option_map (λ chunk. chunk_view chunk.now) result ≡ chunk_with range.now (map chunk_view chunks.now) }
{
    for chunk in chunks {
        if is_same_range(&chunk.range, range) {
            return Some(chunk);
        }
    }
    None
}

// Returns a copied chunk, with the version where it is the first that the donor has; and whether the donor's first was met.
fn raised(chunk: Chunk, is_raised: bool, donor: NodeId, lowest: Version) -> (Chunk, bool)
    ensures rest { (rest : List tables.Chunk) → left_to_move is_raised donor.0 (version_view lowest) (chunk_view chunk ∷ rest) ≡ chunk_view result.0 ∷ left_to_move result.1 donor.0 (version_view lowest) rest }
    ensures same { (result.0.range ≡ chunk.range) × (result.0.history ≡ chunk.history) }
{
    if !is_raised && chunk.history.has(donor) {
        let raised = Chunk {
            range: chunk.range,
            version: lowest,
            history: chunk.history,
        };
        return (raised, true);
    }
    (chunk, is_raised)
}

/// Returns the chunks, of which the one with the range has the version `moved` and one owner more, and the first that the donor has then
/// the version `lowest`. Fails if memory runs out, and where a journal could not encode the number of a chunk's owners.
pub(crate) fn moved_chunks(
    alloc: Global,
    chunks: &[Chunk],
    range: &KeyRange,
    donor: NodeId,
    owned: Owned,
    moved: Version,
    lowest: Version,
) -> Result<Vec<Chunk>, Memory>
    requires writable { AllByRecursion IsWritableChunk (map chunk_view chunks.now) }
    ensures chunks { IfOk result (λ v. map chunk_view v.items ≡ with_lowest donor.0 (version_view lowest) (map (moved_chunk range.now (version_view moved) (owned_view owned)) (map chunk_view chunks.now))) }
    ensures count { IfOk result (λ v. length v.items ≡ length chunks.now) }
    ensures writable { IfOk result (λ v. AllByRecursion IsWritableChunk (map chunk_view v.items)) }
{
    let mut copies = Vec::with_capacity(alloc, chunks.len())?;
    let mut is_raised = false;
    for chunk in chunks {
        let copy = moved_chunk(alloc, chunk, range, moved, owned)?;
        let (copy, raised) = raised(copy, is_raised, donor, lowest);
        copies.push(copy)?;
        is_raised = raised;
    }
    Ok(copies)
}
