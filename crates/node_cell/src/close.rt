//! Cells of many nodes: how they are made, and what is known once they are closed.

ghost use Rattle.std.specs.Prelude.{◌≡◌, ℕ, ◌+◌, ◌≤◌, List, [], ◌∷◌, ◌++◌, length, map, vec_len, vec_capacity, IfErr, IfOk};
ghost use Rattle.std.specs.List.{AllByRecursion};
ghost use Rattle.driver_steps.specs.Seats.{AreOpen};
ghost use Rattle.node_cell.specs.Courses.{node_facts};
ghost use Rattle.node_cell.specs.Standing.{AllSit, AreFrom, AreRun, IsPart};
ghost use Rattle.node_cell.specs.Views.{IsFree, nodes_held, nothing_seen, numbered};

use crate::cell::Cell;
use crate::guarded::Guarded;
use crate::letter::Note;
use crate::numbers::Book;
use crate::view::{Numbering, Pass, Placed};
use driver_steps::Seat;
use node_traits::Node;
use outside::log::Log;
use std::alloc::Global;
use std::collections::VecDeque;
use std::sync::Wait;

/// Puts each node under a lock of its own, and returns these with the pass that is left.
///
/// # Errors
/// The nodes, if memory runs out.
pub fn cells<N: Node, L: Log, K: Numbering>(
    alloc: Global,
    book: &Book<N, L, K>,
    mut pass: Pass<N, L>,
    seats: Vec<Seat<N, L>>,
) -> Result<(Vec<Cell<N, L, K>>, Pass<N, L>), Vec<Seat<N, L>>>
    requires table { pass.table_id ≡ K.table }
    requires pass { pass.me ≡ (nodes_held (numbered 0 seats.items), []) }
    requires open { AreOpen L.facts.is_open seats.items }
    ensures len { IfOk result (λ r. vec_len r.0 ≡ vec_len seats) }
    ensures pass { IfOk result (λ r. (r.1.table_id ≡ K.table) × (r.1.me ≡ (nothing_seen, []))) }
    ensures err { IfErr result (λ r. r.items ≡ seats.items) }
{
    let mut all = match Vec::with_capacity(alloc, seats.len()) {
        Ok(all) => all,
        Err(_) => return Err(seats),
    };
    let mut waiting = VecDeque::from_vec(seats);
    let mut at = 0;
    'nodes: while let Some(seat) = waiting.pop_front() {
        let own = book.first(&mut pass);
        let guarded = Guarded::new(at, seat, own);
        all.push_reserved(Cell::new(guarded));
        at += 1;
    }
    waiting.destroy_empty();
    Ok((all, pass))
}

/// Takes the nodes out of their locks, in order of their places, and joins their passes to one.
fn gather<N: Node, L: Log, K: Numbering, R: Wait>(
    rt: &R,
    book: &Book<N, L, K>,
    pass: &mut Pass<N, L>,
    cells: Vec<Cell<N, L, K>>,
    ended: &mut Vec<Placed<N, L>>,
)
    requires table { pass.old.table_id ≡ K.table }
    requires pass { pass.old.me ≡ (nothing_seen, []) }
    requires none { ended.old.items ≡ [] }
    requires room { vec_len cells ≤ vec_capacity ended.old }
    ensures table { pass.new.table_id ≡ K.table }
    ensures free { IsFree pass.new.me }
    ensures len { vec_len ended.new ≡ vec_len cells }
    ensures sit { AllSit (node_facts N.state N.steps (λ m. N.Mail.letter m) N.meaning L.facts) K.routers (map (λ m. N.Mail.letter m) pass.new.me.0.seen) 0
        pass.new.me.0.held ended.new.items }
{
    let mut waiting = VecDeque::from_vec(cells);
    let mut at = 0;
    'nodes: while let Some(cell) = waiting.pop_front() {
        let guarded = cell.into_guarded(rt, at);
        let (placed, own) = guarded.into_parts();
        book.join(pass, own);
        ended.push_reserved(placed);
        at += 1;
    }
    waiting.destroy_empty();
}

/// Joins what notes have seen to a pass.
fn learn<N: Node, L: Log, K: Numbering>(
    book: &Book<N, L, K>,
    pass: &mut Pass<N, L>,
    mut notes: Vec<Note<N, L, K>>,
)
    requires table { pass.old.table_id ≡ K.table }
    requires free { IsFree pass.old.me }
    ensures table { pass.new.table_id ≡ K.table }
    ensures free { IsFree pass.new.me }
    ensures held { pass.new.me.0.held ≡ pass.old.me.0.held }
    ensures kept { IsPart pass.old.me.0 pass.new.me.0 }
    ensures notes { AllByRecursion (λ v. IsPart v pass.new.me.0) notes.items }
{
    'notes: while let Some(note) = notes.pop() {
        let Note { pass: seen, of: _ } = note;
        book.join(pass, seen);
    }
}

/// Closes the numbering, and returns the nodes in order of their places, in the list that has room for them. From each world whose nodes they were at the start
/// there is one run, in which each step that a note has seen was taken, to a world in which they are the nodes, with their logs.
pub fn close_cells<N: Node, L: Log, K: Numbering, R: Wait>(
    rt: &R,
    book: Book<N, L, K>,
    mut pass: Pass<N, L>,
    cells: Vec<Cell<N, L, K>>,
    notes: Vec<Note<N, L, K>>,
    mut ended: Vec<Placed<N, L>>,
) -> Vec<Placed<N, L>>
    requires table { pass.table_id ≡ K.table }
    requires pass { pass.me ≡ (nothing_seen, []) }
    requires all { vec_len cells ≡ length book.table.shared.key.seats.value.items }
    requires none { ended.items ≡ [] }
    requires room { vec_len cells ≤ vec_capacity ended }
    ensures len { vec_len result ≡ vec_len cells }
    ensures places { AreFrom 0 result.items }
    ensures run { AreRun (node_facts N.state N.steps (λ m. N.Mail.letter m) N.meaning L.facts) book.routers
        book.table.shared.key.seats.value.items result.items notes.items }
{
    gather(rt, &book, &mut pass, cells, &mut ended);
    learn(&book, &mut pass, notes);
    book.close(pass);
    ended
}
