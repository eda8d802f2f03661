//! The links that ended, in the order of their numbers.

ghost use Rattle.std.specs.Prelude.{ℕ};
ghost use Rattle.conn_server.specs.Conversations.{AreHeard, link_facts};

use crate::link::Heard;
use crate::opened::Opened;
use node_cell::{Note, Numbering};
use node_traits::Node;
use outside::exchange::Spoken;
use outside::log::Log;
use outside::streams::Link;
use std::alloc::Global;
use std::marker::Model;

/// Links that ended, each with a note of what was said on it.
#[derive(Drop)]
pub(crate) struct Links<N: Node, L: Log, K: Numbering, S: Link + Drop> {
    spoken: Vec<Spoken<S>>,
    notes: Vec<Note<N, L, K>>,
    next: u64,
}

impl<N: Node, L: Log, K: Numbering, S: Link + Drop> Model for Links<N, L, K, S> {
    ghost use Rattle.std.specs.Prelude.{ℕ};
    ghost use Rattle.conn_server.specs.Conversations.{AreHeard, link_facts};

    ghost Value = { ℕ };

    ghost view = { λ l. l.next };

    ghost invariant = { λ l.
        AreHeard N.meaning (link_facts S.Source.tells S.Source.left S.Sink.tells S.Sink.held S.Sink.noted S.is_closed)
        0 l.next l.spoken.items l.notes.items };
}

impl<N: Node, L: Log, K: Numbering, S: Link + Drop> Links<N, L, K, S> {
    /// Returns no links.
    pub(crate) fn new(alloc: Global) -> Links<N, L, K, S> {
        Links {
            spoken: Vec::new(alloc),
            notes: Vec::new(alloc),
            next: 0,
        }
    }

    /// Adds a link, whose number is greater than those of all before. Returns whether it was added: it is not if memory runs out.
    pub(crate) fn add<O: Opened<S>>(&mut self, heard: Heard<N, L, K, S, O>) -> bool {
        let Heard {
            opened,
            link,
            end,
            talk,
        } = heard;
        let number = talk.link() as u64;
        if number < self.next || self.spoken.reserve(1).is_err() || self.notes.reserve(1).is_err() {
            return false;
        }
        let (said, note) = talk.into_parts();
        let opened = opened.into_snapshot();
        self.spoken.push_reserved(Spoken {
            opened,
            link,
            end,
            said,
        });
        self.notes.push_reserved(note);
        self.next = number + 1;
        true
    }

    /// Returns the links and the notes.
    pub(crate) fn into_parts(self) -> (Vec<Spoken<S>>, Vec<Note<N, L, K>>)
        ensures { (next : ℕ)
            × AreHeard N.meaning (link_facts S.Source.tells S.Source.left S.Sink.tells S.Sink.held S.Sink.noted S.is_closed)
            0 next result.0.items result.1.items }
    {
        (self.spoken, self.notes)
    }
}
