//! The cursor numbers of a router that was started again.

ghost use Rattle.std.specs.Prelude.{◌≡◌, ◌≤◌, ◌*◌, ◌^◌, ℕ, []};
ghost use Rattle.router_cursors.specs.CursorLists.{blocks_of, cursors_of, gave_of};

use crate::list::CursorList;
use cursor_shelf::Shelf;
use ghost_list::GhostList;
use std::alloc::Global;

/// How many numbers a block has.
const BLOCK_SIZE: u64 = 64;

impl CursorList {
    /// Returns an empty list of a router that wrote this number of blocks in earlier lives: the next number is the first of the next block.
    pub fn restored(alloc: Global, blocks: u64) -> CursorList
        requires { blocks ≤ 2 ^ 56 }
        ensures cursors { (router life : ℕ) → cursors_of router life result ≡ [] }
        ensures blocks { blocks_of result ≡ blocks }
        ensures gave { gave_of result ≡ 64 * blocks }
    {
        CursorList {
            alloc,
            shelf: Shelf::new(alloc),
            blocks,
            gave: BLOCK_SIZE * blocks,
            opened: GhostList::new(),
        }
    }
}
