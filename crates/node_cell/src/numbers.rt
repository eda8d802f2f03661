//! The numbers of the steps.

ghost use Rattle.std.specs.Prelude.{◌≡◌, ℕ, ◌<◌, ◌≤◌, ◌^◌, ◌++◌, [], List, ⊤, IfOk, IsTrue, length, vec_len};
ghost use Rattle.std.specs.List.{AllByRecursion};
ghost use Rattle.atomic_table.specs.Table.{Final, Seen};
ghost use Rattle.driver_steps.specs.Seats.{AreOpen};
ghost use Rattle.group_steps.specs.Parts.{Among};
ghost use Rattle.node_cell.specs.Board.{notes_at, pairs_of};
ghost use Rattle.node_cell.specs.Courses.{Holds, node_facts};
ghost use Rattle.node_cell.specs.Standing.{IsPart};
ghost use Rattle.node_cell.specs.Views.{Sights, all_at_start, board_held, board_off, both_views, first_alone, first_off, nodes_held, noted, numbered};
ghost use Rattle.node_cell.specs.Views.{safe_from, shown, sights_of, view_of};

use crate::board::{Board, see_all};
use crate::letter::Note;
use crate::view::{Both, First, Law, Numbering, OfBoard, Off, Opening, Pass, Shown, View};
use atomic_table::Table;
use bson_values::Memory;
use driver_steps::Seat;
use node_traits::Node;
use outside::log::Log;
use outside::witness::{DiskLink, SeenDisk};
use std::alloc::Global;
use std::marker::PhantomData;
use std::snapshot::Snapshot;
use std::sync::{Mutex, Wait};

/// The table of the numbers: its word is the number of the step to come. The disks of all nodes were seen.
#[derive(Drop)]
pub struct Numbers<N: Node, L: Log> {
    pub table: Table<(), View<N, L, N::Mail, N::Input>, Opening<N, L>, Law<N, L>, Global>,
    pub routers: u64,
    pub seen: Vec<SeenDisk<L::Of>>,
    ghost one_word: { table.shared.table_id.words ≡ 1 },
    ghost no_slot: { table.shared.table_id.slots ≡ 0 },
    ghost routers_are: { table.shared.key.routers ≡ routers },
}

impl<N: Node, L: Log> Numbers<N, L> {
    /// Returns the numbers of the steps of these nodes, of which those from a number on are routers, and the pass that has all nodes. Their logs are open.
    /// Returns `Memory` if memory runs out.
    pub fn new(
        alloc: Global,
        seats: &Vec<Seat<N, L>>,
        routers: u64,
    ) -> Result<(Numbers<N, L>, Pass<N, L>), Memory>
        requires few { vec_len seats.now ≤ 64 }
        requires small { AllByRecursion (λ s. N.steps s.node < 2 ^ 56) seats.now.items }
        requires open { AreOpen L.facts.is_open seats.now.items }
        ensures table { IfOk result (λ r. r.1.table_id ≡ r.0.table.shared.table_id) }
        ensures pass { IfOk result (λ r. r.1.me ≡ (all_at_start L.facts seats.now.items, [])) }
        ensures start { IfOk result (λ r. r.0.table.shared.key.seats.value.items ≡ seats.now.items) }
        ensures routers { IfOk result (λ r. r.0.routers ≡ routers) }
        ensures seen { IfOk result (λ r. pairs_of r.0.seen.items ≡ sights_of L.facts seats.now.items) }
    {
        let mut seen = match Vec::with_capacity(alloc, seats.len()) {
            Ok(seen) => seen,
            Err(_) => return Err(Memory),
        };
        see_all(seats, &mut seen);
        let start = Opening {
            seats: Snapshot::of(seats),
            routers,
        };
        match Table::of_words(alloc, &[0], &start) {
            Ok((table, pass)) => Ok((
                Numbers {
                    table,
                    routers,
                    seen,
                },
                pass,
            )),
            Err(_) => Err(Memory),
        }
    }

    /// The numbers under the name of their table, which all types around them share. The pass that has all nodes gives the board to them.
    pub fn named<K: Numbering>(self, pass: &mut Pass<N, L>) -> Book<N, L, K>
        requires table { self.table.shared.table_id ≡ K.table }
        requires routers { self.routers ≡ K.routers }
        requires of { pass.old.table_id ≡ K.table }
        requires pass { pass.old.me ≡ (all_at_start L.facts self.table.shared.key.seats.value.items, []) }
        requires seen { pairs_of self.seen.items ≡ sights_of L.facts self.table.shared.key.seats.value.items }
        ensures same { (result.table ≡ self.table) × (result.routers ≡ self.routers) }
        ensures of { pass.new.table_id ≡ K.table }
        ensures pass { pass.new.me ≡ (nodes_held (numbered 0 self.table.shared.key.seats.value.items), []) }
    {
        let Numbers {
            table,
            routers,
            seen,
        } = self;
        let board = table.shared.split_seat::<OfBoard>(pass);
        Book {
            table,
            routers,
            board: Mutex::new(Board::new(seen, board)),
            of: PhantomData,
        }
    }
}

/// The numbers, as all threads share them, and the board under its lock. A step gets its number while that lock is held.
#[derive(Drop)]
pub struct Book<N: Node, L: Log, K: Numbering> {
    pub table: Table<(), View<N, L, N::Mail, N::Input>, Opening<N, L>, Law<N, L>, Global>,
    pub routers: u64,
    pub(crate) board: Mutex<Board<N, L, K>>,
    of: PhantomData<K>,
    ghost one_word: { table.shared.table_id.words ≡ 1 },
    ghost no_slot: { table.shared.table_id.slots ≡ 0 },
    ghost routers_are: { table.shared.key.routers ≡ routers },
    ghost named: { table.shared.table_id ≡ K.table },
    ghost routers_named: { routers ≡ K.routers },
}

impl<N: Node, L: Log, K: Numbering> Book<N, L, K> {
    /// Returns a note of all that a pass has seen.
    pub(crate) fn note(&self, pass: &mut Pass<N, L>) -> Pass<N, L>
        requires { pass.old.table_id ≡ K.table }
        ensures pass { (pass.new.table_id ≡ K.table) × (pass.new.me ≡ pass.old.me) }
        ensures note { (result.table_id ≡ K.table) × (result.me ≡ (noted pass.old.me.0, [])) }
    {
        self.table.shared.split_seat::<Off>(pass)
    }

    /// Returns a pass of its own for the first node that a pass has.
    pub(crate) fn first(&self, pass: &mut Pass<N, L>) -> Pass<N, L>
        requires { pass.old.table_id ≡ K.table }
        ensures pass { (pass.new.table_id ≡ K.table) × (pass.new.me ≡ (
          view_of (first_off pass.old.me.0.held) pass.old.me.0.board pass.old.me.0.seen
              pass.old.me.0.told pass.old.me.0.taken pass.old.me.0.safe,
          pass.old.me.1,
        )) }
        ensures first { (result.table_id ≡ K.table) × (result.me ≡ (nodes_held (first_alone pass.old.me.0.held), [])) }
    {
        self.table.shared.split_seat::<First>(pass)
    }

    /// Returns a pass of its own for the board that a pass has.
    pub(crate) fn board(&self, pass: &mut Pass<N, L>) -> Pass<N, L>
        requires { pass.old.table_id ≡ K.table }
        ensures pass { (pass.new.table_id ≡ K.table) × (pass.new.me ≡ (board_off pass.old.me.0, pass.old.me.1)) }
        ensures board { (result.table_id ≡ K.table) × (result.me ≡ (board_held pass.old.me.0.board, [])) }
    {
        self.table.shared.split_seat::<OfBoard>(pass)
    }

    /// Returns a note that the replies that a pass has seen are safe, where it has the board.
    pub(crate) fn shown(&self, pass: &mut Pass<N, L>) -> Pass<N, L>
        requires { pass.old.table_id ≡ K.table }
        ensures pass { (pass.new.table_id ≡ K.table) × (pass.new.me ≡ pass.old.me) }
        ensures note { (result.table_id ≡ K.table) × (result.me ≡ (shown pass.old.me.0, [])) }
    {
        self.table.shared.split_seat::<Shown>(pass)
    }

    /// Shows the disks of all nodes to a link, and to a note: the replies that it has seen are safe from these moments on, which were seen before this call
    /// returns.
    pub fn show<S: DiskLink<L::Of>, R: Wait>(&self, rt: &R, note: &mut Note<N, L, K>, link: &mut S)
        ensures kept { IsPart note.old note.new }
        ensures shown { (disks : Sights) × AllByRecursion (λ r. Among (safe_from disks r) note.new.safe) note.old.told
            × (IsTrue S.Sink.tells → S.Sink.noted link.new ≡ S.Sink.noted link.old ++ notes_at (length (S.Sink.held link.old)) disks) }
        ensures held { S.Sink.held link.new ≡ S.Sink.held link.old }
        ensures left { S.Source.left link.new ≡ S.Source.left link.old }
    {
        self.board.lock(rt).show(self, note, link)
    }

    /// Adds all that one pass has and has seen to another.
    pub(crate) fn join(&self, pass: &mut Pass<N, L>, other: Pass<N, L>)
        requires pass { pass.old.table_id ≡ K.table }
        requires other { (other.table_id ≡ K.table) × (other.me.1 ≡ []) }
        ensures { (pass.new.table_id ≡ K.table) × (pass.new.me ≡ (both_views pass.old.me.0 other.me.0, pass.old.me.1)) }
    {
        self.table.shared.join_seat::<Both>(pass, other)
    }

    /// Ends the numbering: the rule holds, and what the pass knows is so.
    pub(crate) fn close(self, pass: Pass<N, L>)
        requires { pass.table_id ≡ K.table }
        ensures { (words : List ℕ) × (slots : List ⊤)
            × Final (Seen (Holds (node_facts N.state N.steps (λ m. N.Mail.letter m) N.meaning L.facts) self.routers self.table.shared.key.seats.value.items)
            pass.id pass.me.0) words slots }
    {
        let closed = self.table.close_with(pass);
        closed.free();
    }
}
