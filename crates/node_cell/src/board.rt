//! The board: the disks of all nodes, each as it was after its node's last step.

ghost use Rattle.std.specs.Prelude.{◌≡◌, ◌≤◌, ◌++◌, ◌∷◌, [], length, vec_capacity, vec_len, Some, IsTrue};
ghost use Rattle.std.specs.List.{AllByRecursion, slice_set};
ghost use Rattle.driver_steps.specs.Seats.{AreDurable, AreOpen};
ghost use Rattle.group_steps.specs.Parts.{Among};
ghost use Rattle.node_cell.specs.Board.{notes_at, pairs_of};
ghost use Rattle.node_cell.specs.Courses.{node_facts};
ghost use Rattle.node_cell.specs.Standing.{IsPart, MayTake};
ghost use Rattle.node_cell.specs.Views.{IsFree, Sights, after_steps, board_held, board_off, given_by, safe_from, sights_of};

use crate::letter::Note;
use crate::numbers::Book;
use crate::view::{Numbering, Pass, Said, Takes};
use driver_steps::Seat;
use group_steps::Part;
use node_traits::Node;
use outside::disk::Disk;
use outside::log::Log;
use outside::witness::{DiskLink, SeenDisk};
use std::marker::{Model, PhantomData};

/// Sees the disk of each node, in order, into a list that has room. Each log is open, and so it is durable.
pub(crate) fn see_all<N: Node, L: Log>(seats: &Vec<Seat<N, L>>, seen: &mut Vec<SeenDisk<L::Of>>)
    requires open { AreOpen L.facts.is_open seats.now.items }
    requires none { seen.old.items ≡ [] }
    requires room { vec_len seats.now ≤ vec_capacity seen.old }
    ensures durable { AreDurable L.facts seats.now.items }
    ensures seen { pairs_of seen.new.items ≡ sights_of L.facts seats.now.items }
{
    'seats: for seat in seats {
        seen.push_reserved(SeenDisk::of(seat.log.device()));
    }
}

/// Replaces the disk at a place by another that was seen; where there is none nothing changes.
fn see_anew<D: Disk>(seen: &mut Vec<SeenDisk<D>>, at: u64, disk: SeenDisk<D>)
    ensures { pairs_of seen.new.items ≡ slice_set (pairs_of seen.old.items) at (disk.place, disk.moment) }
{
    let place = at as usize;
    if place < seen.len() {
        seen[place] = disk;
    }
}

/// Shows disks that were seen to a link, in order.
fn note_all<D: Disk, S: DiskLink<D>>(link: &mut S, seen: &Vec<SeenDisk<D>>)
    ensures noted { IsTrue S.Sink.tells → S.Sink.noted link.new ≡ S.Sink.noted link.old ++ notes_at (length (S.Sink.held link.old)) (pairs_of seen.now.items) }
    ensures held { S.Sink.held link.new ≡ S.Sink.held link.old }
    ensures left { S.Source.left link.new ≡ S.Source.left link.old }
{
    let mut at = 0;
    'disks: while at < seen.len() {
        link.note(&seen[at]);
        at += 1;
    }
}

/// The disks of all nodes as they were seen, with the pass that has the board.
#[derive(Drop)]
pub(crate) struct Board<N: Node, L: Log, K: Numbering> {
    seen: Vec<SeenDisk<L::Of>>,
    pass: Pass<N, L>,
    of: PhantomData<K>,
}

impl<N: Node, L: Log, K: Numbering> Model for Board<N, L, K> {
    ghost use Rattle.std.specs.Prelude.{◌≡◌, ◌∷◌, []};
    ghost use Rattle.node_cell.specs.Board.{pairs_of};
    ghost use Rattle.node_cell.specs.Views.{Sights, board_held};

    ghost Value = { Sights };

    ghost view = { λ b. pairs_of b.seen.items };

    ghost invariant = { λ b. (b.pass.table_id ≡ K.table) × (b.pass.me ≡ (board_held (pairs_of b.seen.items ∷ []), [])) };
}

impl<N: Node, L: Log, K: Numbering> Board<N, L, K> {
    /// Returns the board with the disks as they were seen.
    pub(crate) fn new(seen: Vec<SeenDisk<L::Of>>, pass: Pass<N, L>) -> Board<N, L, K>
        requires table { pass.table_id ≡ K.table }
        requires pass { pass.me ≡ (board_held (pairs_of seen.items ∷ []), []) }
    {
        Board {
            seen,
            pass,
            of: PhantomData,
        }
    }

    /// Gives steps that were taken their numbers, one after another, and returns the first. From now on the board shows the disk of their node as it was seen
    /// after them.
    pub(crate) fn place<W: Said<N, L, N::Mail, N::Input>>(
        &mut self,
        book: &Book<N, L, K>,
        pass: &mut Pass<N, L>,
        at: u64,
        seat: &Seat<N, L>,
        parts: &[Part<N::Mail, N::Input>],
        disk: SeenDisk<L::Of>,
    ) -> u64
        requires said { W.step ≡ Some (given_by L.facts at parts.now seat.now) }
        requires table { pass.old.table_id ≡ K.table }
        requires free { IsFree pass.old.me }
        requires disk { disk ≡ record { place = L.facts.place seat.now.log; moment = L.facts.moment seat.now.log } }
        requires may { MayTake (node_facts N.state N.steps (λ m. N.Mail.letter m) N.meaning L.facts) K.routers pass.old.me.0
            (given_by L.facts at parts.now seat.now) }
        ensures table { pass.new.table_id ≡ K.table }
        ensures pass { pass.new.me ≡ (board_off (after_steps (given_by L.facts at parts.now seat.now) result pass.old.me.0), []) }
    {
        let board = book.board(&mut self.pass);
        book.join(pass, board);
        let number = book
            .table
            .shared
            .fetch_add::<Takes<W>>(pass, 0, parts.len() as u64);
        let board = book.board(pass);
        book.join(&mut self.pass, board);
        see_anew(&mut self.seen, at, disk);
        number
    }

    /// Shows all disks to a link, and to a note: the replies that it has seen are safe from these moments on.
    pub(crate) fn show<S: DiskLink<L::Of>>(
        &mut self,
        book: &Book<N, L, K>,
        note: &mut Note<N, L, K>,
        link: &mut S,
    )
        ensures kept { IsPart note.old note.new }
        ensures shown { (disks : Sights) × AllByRecursion (λ r. Among (safe_from disks r) note.new.safe) note.old.told
            × (IsTrue S.Sink.tells → S.Sink.noted link.new ≡ S.Sink.noted link.old ++ notes_at (length (S.Sink.held link.old)) disks) }
        ensures held { S.Sink.held link.new ≡ S.Sink.held link.old }
        ensures left { S.Source.left link.new ≡ S.Source.left link.old }
    {
        let mut told = book.note(&mut note.pass);
        let board = book.board(&mut self.pass);
        book.join(&mut told, board);
        let seen = book.shown(&mut told);
        let board = book.board(&mut told);
        book.join(&mut self.pass, board);
        book.join(&mut note.pass, seen);
        note_all(link, &self.seen);
    }
}
