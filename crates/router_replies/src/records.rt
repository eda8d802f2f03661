//! Records of lives, and of blocks of numbers of cursors.

ghost use Rattle.std.specs.Prelude.{◌≡◌, ◌∷◌, [], IfOk, OnOk};
ghost use Rattle.node_model.specs.Journal.{kept_block, kept_life};
ghost use Rattle.node_traits.specs.Effects.{AreReadable, spellings};
ghost use Rattle.router_cursors.specs.Numbers.{block_kept};

use bson_values::{Blob, Memory};
use shard_records::{write_block, write_life};
use std::alloc::Global;

/// Returns the record of a life, or `Memory` if memory runs out.
pub fn life_record(alloc: Global, life: u64) -> Result<Blob, Memory>
    ensures record { IfOk result (λ bytes. bytes ∷ [] ≡ spellings (kept_life life ∷ [])) }
    ensures readable { OnOk result (AreReadable (kept_life life ∷ [])) }
{
    let mut bytes = Vec::new(alloc);
    write_life(life, &mut bytes)?;
    Blob::of(alloc, &bytes)
}

/// Returns the record of a block of numbers, or `Memory` if memory runs out.
fn block_record(alloc: Global, block: u64) -> Result<Blob, Memory>
    ensures record { IfOk result (λ bytes. bytes ∷ [] ≡ spellings (kept_block block ∷ [])) }
    ensures readable { OnOk result (AreReadable (kept_block block ∷ [])) }
{
    let mut bytes = Vec::new(alloc);
    write_block(block, &mut bytes)?;
    Blob::of(alloc, &bytes)
}

/// Returns the records of a block of numbers of cursors, if a new one is needed. Returns `Memory` if memory runs out.
pub fn block_records(alloc: Global, block: Option<u64>) -> Result<Vec<Blob>, Memory>
    ensures records { IfOk result (λ records. records.items ≡ spellings (block_kept block)) }
    ensures readable { OnOk result (AreReadable (block_kept block)) }
{
    let mut records = Vec::new(alloc);
    if let Some(number) = block {
        records.push(block_record(alloc, number)?)?;
    }
    Ok(records)
}
