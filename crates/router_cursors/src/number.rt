//! Numbers of cursors.

ghost use Rattle.std.specs.Prelude.{◌≡◌, ◌≤◌, ◌<◌, ◌^◌, ◌*◌, ◌+◌, pos, IfNone, IfSome};
ghost use Rattle.router_cursors.specs.Numbers.{block_given, blocks_then, number_given};

/// How many numbers a block has.
const BLOCK_SIZE: u64 = 64;

/// This number of blocks is never written: each is written in one of 2^56 steps.
const MOST_BLOCKS: u64 = 1 << 56;

/// The number of a new cursor.
#[derive(Clone, Copy, Debug, PartialEq, Eq)]
pub struct NewNumber {
    pub number: u64,
    /// The block that must be written first, if one must.
    pub block: Option<u64>,
    /// How many blocks are written afterwards.
    pub blocks: u64,
}

/// Returns the number as commands have it.
pub(crate) fn as_signed(number: u64) -> i64
    requires { number ≤ 2 ^ 62 }
    ensures { result ≡ pos number }
{
    number as i64
}

/// Returns the next number, given how many blocks were written and the last number, or none where the numbers are exhausted.
pub(crate) fn number_behind(blocks: u64, gave: u64) -> Option<NewNumber>
    requires few { blocks ≤ 2 ^ 56 }
    requires within { gave ≤ 64 * blocks }
    ensures number { IfSome result (λ n. n.number ≡ number_given blocks gave) }
    ensures block { IfSome result (λ n. n.block ≡ block_given blocks gave) }
    ensures blocks { IfSome result (λ n. n.blocks ≡ blocks_then blocks gave) }
    ensures behind { IfSome result (λ n. n.number ≡ gave + 1) }
    ensures inside { IfSome result (λ n. n.number ≤ 64 * n.blocks) }
    ensures few { IfSome result (λ n. n.blocks ≤ 2 ^ 56) }
    ensures none { IfNone result (2 ^ 62 < number_given blocks gave) }
{
    if gave < BLOCK_SIZE * blocks {
        return Some(NewNumber {
            number: gave + 1,
            block: None,
            blocks,
        });
    }
    if blocks >= MOST_BLOCKS {
        return None;
    }
    Some(NewNumber {
        number: BLOCK_SIZE * blocks + 1,
        block: Some(blocks),
        blocks: blocks + 1,
    })
}
