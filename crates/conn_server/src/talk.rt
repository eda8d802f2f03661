//! What was said on a link.

ghost use Rattle.std.specs.Prelude.{◌≡◌, ◌<◌, ◌≤◌, ◌++◌, ◌∷◌, [], length, OnOk, IsTrue};
ghost use Rattle.group_steps.specs.Parts.{Among};
ghost use Rattle.node_cell.specs.Board.{notes_at};
ghost use Rattle.node_cell.specs.Standing.{IsPart};
ghost use Rattle.node_cell.specs.Views.{Sights, safe_from};
ghost use Rattle.std.specs.List.{AllByRecursion};
ghost use Rattle.conn_server.specs.Talks.{AreRising, IsAsked, IsNoted, IsReplied, exchange_of};

use bson_values::{Blob, Memory};
use node_cell::{Book, Note, Numbering};
use node_traits::Node;
use outside::exchange::Exchange;
use outside::log::Log;
use outside::witness::DiskLink;
use std::alloc::Global;
use std::marker::Model;
use std::sync::Wait;

/// The requests of a link with their replies, and a note that has seen the steps that took and answered them.
#[derive(Drop)]
pub(crate) struct Talk<N: Node, L: Log, K: Numbering> {
    link: u32,
    said: Vec<Exchange>,
    last: Option<u64>,
    note: Note<N, L, K>,
}

impl<N: Node, L: Log, K: Numbering> Model for Talk<N, L, K> {
    ghost use Rattle.std.specs.Prelude.{vec_capacity};
    ghost use Rattle.std.specs.List.{AllByRecursion};
    ghost use Rattle.conn_server.specs.Talks.{AreRising, IsNoted, TalkView, above};

    ghost Value = { TalkView N L N.Mail N.Input };

    ghost view = { λ t. record { link = t.link; said = t.said.items; next = above t.last; room = vec_capacity t.said; note = t.note } };

    ghost invariant = { λ t. AllByRecursion (λ e. IsNoted N.meaning t.link t.note e) t.said.items × AreRising 0 (above t.last) t.said.items };
}

impl<N: Node, L: Log, K: Numbering> Talk<N, L, K> {
    /// Returns the talk on a link on which nothing was said.
    pub(crate) fn new(alloc: Global, link: u32, note: Note<N, L, K>) -> Talk<N, L, K>
        ensures link { result.link ≡ link }
        ensures said { result.said ≡ [] }
    {
        Talk {
            link,
            said: Vec::new(alloc),
            last: None,
            note,
        }
    }

    /// Returns the number of the link.
    pub(crate) fn link(&self) -> u32
        ensures { result ≡ self.now.link }
    {
        self.link
    }

    /// Returns whether a step with a number comes after those of all requests before.
    pub(crate) fn is_next(&self, came: u64) -> bool
        ensures { IsTrue result → self.now.next ≤ came }
    {
        match self.last {
            Some(last) => last < came,
            None => true,
        }
    }

    /// Adds what another note has seen.
    pub(crate) fn see(&mut self, book: &Book<N, L, K>, other: Note<N, L, K>)
        ensures link { self.new.link ≡ self.old.link }
        ensures said { self.new.said ≡ self.old.said }
        ensures next { self.new.next ≡ self.old.next }
        ensures room { self.new.room ≡ self.old.room }
        ensures taken { self.new.note.taken ≡ self.old.note.taken ++ other.taken }
        ensures told { self.new.note.told ≡ self.old.note.told ++ other.told }
        ensures safe { self.new.note.safe ≡ self.old.note.safe ++ other.safe }
    {
        self.note.join(book, other);
    }

    /// Shows the disks of all nodes to the link: the replies that were seen are safe from these moments on.
    pub(crate) fn show<S: DiskLink<L::Of>, R: Wait>(
        &mut self,
        rt: &R,
        book: &Book<N, L, K>,
        link: &mut S,
    )
        ensures link { self.new.link ≡ self.old.link }
        ensures said { self.new.said ≡ self.old.said }
        ensures next { self.new.next ≡ self.old.next }
        ensures room { self.new.room ≡ self.old.room }
        ensures kept { IsPart self.old.note self.new.note }
        ensures shown { (disks : Sights) × AllByRecursion (λ r. Among (safe_from disks r) self.new.note.safe) self.old.note.told
            × (IsTrue S.Sink.tells → S.Sink.noted link.new ≡ S.Sink.noted link.old ++ notes_at (length (S.Sink.held link.old)) disks) }
        ensures held { S.Sink.held link.new ≡ S.Sink.held link.old }
        ensures left { S.Source.left link.new ≡ S.Source.left link.old }
    {
        book.show(rt, &mut self.note, link);
    }

    /// Reserves room for one exchange. Returns `Memory` if memory runs out.
    pub(crate) fn reserve(&mut self) -> Result<(), Memory>
        ensures room { OnOk result (length self.old.said < self.new.room) }
        ensures link { self.new.link ≡ self.old.link }
        ensures said { self.new.said ≡ self.old.said }
        ensures next { self.new.next ≡ self.old.next }
        ensures note { self.new.note ≡ self.old.note }
    {
        self.said.reserve(1)?;
        Ok(())
    }

    /// Adds a request that was taken in the step with a number, after those of all requests before, and the reply of another step, or none.
    pub(crate) fn add(&mut self, came: u64, request: Blob, step: u64, reply: Option<Blob>)
        requires asked { IsAsked N.meaning self.old.note.taken self.old.link came request }
        requires replied { IsReplied self.old.note.told self.old.link came step reply }
        requires next { self.old.next ≤ came }
        requires room { length self.old.said < self.old.room }
        ensures link { self.new.link ≡ self.old.link }
        ensures said { self.new.said ≡ self.old.said ++ exchange_of came step request reply ∷ [] }
        ensures note { self.new.note ≡ self.old.note }
    {
        self.last = Some(came);
        self.said.push_reserved(Exchange {
            came,
            step,
            request,
            reply,
        });
    }

    /// Returns the requests with their replies, and the note.
    pub(crate) fn into_parts(self) -> (Vec<Exchange>, Note<N, L, K>)
        ensures said { result.0.items ≡ self.said }
        ensures note { result.1 ≡ self.note }
        ensures noted { AllByRecursion (λ e. IsNoted N.meaning self.link result.1 e) result.0.items }
        ensures in_turn { AreRising 0 self.next result.0.items }
    {
        (self.said, self.note)
    }
}
