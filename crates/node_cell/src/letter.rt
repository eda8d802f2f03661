//! Messages and replies, with notes of their steps.

ghost use Rattle.std.specs.Prelude.{◌≡◌, ◌++◌, [], IfNone, IfSome, option_to_list, option_map};
ghost use Rattle.node_model.specs.Letters.{letter_input};
ghost use Rattle.group_steps.specs.Parts.{Among};
ghost use Rattle.node_cell.specs.Standing.{AreSeen, AreTold, handed, step_of};
ghost use Rattle.node_cell.specs.Views.{noted};

use crate::numbers::Book;
use crate::queue::Queue;
use crate::view::{Numbering, Pass};
use cluster_base::NodeId;
use node_traits::{Mail, Node, Outputs, ToLink};
use outside::log::Log;
use std::alloc::Global;
use std::marker::{Model, PhantomData, Sync};
use std::snapshot::Snapshot;
use std::thread::Threads;

/// A note of what was seen of a run.
#[derive(Drop)]
pub struct Note<N: Node, L: Log, K: Numbering> {
    pub(crate) pass: Pass<N, L>,
    pub(crate) of: PhantomData<K>,
}

impl<N: Node, L: Log, K: Numbering> Model for Note<N, L, K> {
    ghost use Rattle.std.specs.Prelude.{◌≡◌, []};
    ghost use Rattle.node_cell.specs.Views.{IsFree};
    ghost use Rattle.node_cell.specs.declared.view.View.{View};

    ghost Value = { View N L N.Mail N.Input };

    ghost view = { λ n. n.pass.me.0 };

    ghost invariant = { λ n. (n.pass.table_id ≡ K.table) × IsFree n.pass.me × (n.pass.me.0.held ≡ []) };
}

impl<N: Node, L: Log, K: Numbering> Note<N, L, K> {
    /// Returns a note of all that a pass has seen.
    pub fn of(book: &Book<N, L, K>, pass: &mut Pass<N, L>) -> Note<N, L, K>
        requires table { pass.old.table_id ≡ K.table }
        ensures pass { (pass.new.table_id ≡ K.table) × (pass.new.me ≡ pass.old.me) }
        ensures note { result ≡ noted pass.old.me.0 }
    {
        let pass = book.note(pass);
        Note {
            pass,
            of: PhantomData,
        }
    }

    /// Returns another note of all that this one has seen.
    pub fn split(&mut self, book: &Book<N, L, K>) -> Note<N, L, K>
        ensures same { self.new ≡ self.old }
        ensures note { result ≡ noted self.old }
    {
        let pass = book.note(&mut self.pass);
        Note {
            pass,
            of: PhantomData,
        }
    }

    /// Adds what another note has seen.
    pub fn join(&mut self, book: &Book<N, L, K>, other: Note<N, L, K>)
        ensures seen { self.new.seen ≡ self.old.seen ++ other.seen }
        ensures told { self.new.told ≡ self.old.told ++ other.told }
        ensures taken { self.new.taken ≡ self.old.taken ++ other.taken }
        ensures safe { self.new.safe ≡ self.old.safe ++ other.safe }
    {
        let Note { pass, of: _ } = other;
        book.join(&mut self.pass, pass);
    }
}

/// A message with a note that has seen it sent.
#[derive(Drop)]
pub struct Letter<N: Node, L: Log, K: Numbering> {
    pub(crate) message: N::Mail,
    pub(crate) note: Note<N, L, K>,
}

impl<N: Node, L: Log, K: Numbering> Model for Letter<N, L, K> {
    ghost use Rattle.std.specs.Prelude.{map};
    ghost use Rattle.group_steps.specs.Parts.{Among};

    ghost Value = { N.Mail };

    ghost view = { λ l. l.message };

    ghost invariant = { λ l. Among (N.Mail.letter l.message) (map (λ m. N.Mail.letter m) l.note.seen) };
}

impl<N: Node, L: Log, K: Numbering> Letter<N, L, K> {
    /// Returns the node that it is sent to.
    pub fn to(&self) -> NodeId
        ensures { result.0 ≡ (N.Mail.letter self.now).receiver }
    {
        self.message.to()
    }

    /// Returns the input that delivers it. What depends on the message alone is computed here.
    pub(crate) fn prepare<R: Threads + Sync>(self, rt: &R, alloc: Global) -> Prepared<N, L, K>
        ensures { N.meaning result ≡ letter_input (N.Mail.letter self) }
    {
        let Letter { message, note } = self;
        let to = message.to().0 as u64;
        let input = N::prepare(rt, alloc, message);
        Prepared { to, input, note }
    }
}

/// The input that delivers a message to a node, with a note that has seen the message sent.
#[derive(Drop)]
pub(crate) struct Prepared<N: Node, L: Log, K: Numbering> {
    pub(crate) to: u64,
    pub(crate) input: N::Input,
    pub(crate) note: Note<N, L, K>,
}

impl<N: Node, L: Log, K: Numbering> Model for Prepared<N, L, K> {
    ghost use Rattle.std.specs.Prelude.{◌≡◌, map};
    ghost use Rattle.node_model.specs.Letters.{Letter as Message, letter_input};
    ghost use Rattle.group_steps.specs.Parts.{Among};

    ghost Value = { N.Input };

    ghost view = { λ p. p.input };

    ghost invariant = { λ p. (m : Message) × (N.meaning p.input ≡ letter_input m) × (m.receiver ≡ p.to) × Among m (map (λ m. N.Mail.letter m) p.note.seen) };
}

/// A reply with the number of the step that returned it, and a note that has seen this.
#[derive(Drop)]
pub struct Reply<N: Node, L: Log, K: Numbering> {
    pub(crate) number: u64,
    pub(crate) reply: ToLink,
    pub(crate) note: Note<N, L, K>,
}

impl<N: Node, L: Log, K: Numbering> Model for Reply<N, L, K> {
    ghost use Rattle.std.specs.Prelude.{ℕ};
    ghost use Rattle.node_traits.specs.declared.outputs.ToLink.{ToLink};
    ghost use Rattle.group_steps.specs.Parts.{Among};

    ghost Value = { ℕ × ToLink };

    ghost view = { λ r. (r.number, r.reply) };

    ghost invariant = { λ r. Among (r.number, r.reply) r.note.told };
}

impl<N: Node, L: Log, K: Numbering> Reply<N, L, K> {
    /// Returns the number of the link that it is for.
    pub fn link(&self) -> u32
        ensures { result ≡ self.now.1.link }
    {
        self.reply.link
    }

    /// Returns the number of the step, the reply, and the note that has seen that step return it.
    pub fn into_parts(self) -> (u64, ToLink, Note<N, L, K>)
        ensures reply { (result.0, result.1) ≡ self }
        ensures told { Among (result.0, result.1) result.2.told }
    {
        let Reply {
            number,
            reply,
            note,
        } = self;
        (number, reply, note)
    }
}

/// A step that was taken: its number, the place of its node, its input, its messages and replies that were not taken out yet, and a note that has
/// seen all this.
#[derive(Drop)]
pub struct Stepped<N: Node, L: Log, K: Numbering> {
    number: u64,
    at: u64,
    input: Snapshot<N::Input>,
    mail: Queue<N::Mail>,
    replies: Queue<ToLink>,
    note: Note<N, L, K>,
}

impl<N: Node, L: Log, K: Numbering> Model for Stepped<N, L, K> {
    ghost use Rattle.group_steps.specs.Parts.{Among};
    ghost use Rattle.node_cell.specs.Standing.{AreSeen, AreTold, Handed, handed, step_of};

    ghost Value = { Handed N.Mail N.Input };

    ghost view = { λ s. handed (step_of s.number s.at s.input.value) s.mail s.replies };

    ghost invariant = { λ s. Among (step_of s.number s.at s.input.value) s.note.taken
        × AreSeen (λ m. N.Mail.letter m) s.note.seen s.mail
        × AreTold s.note.told s.number s.replies };
}

impl<N: Node, L: Log, K: Numbering> Stepped<N, L, K> {
    /// Returns the messages and replies of a step, with a note that has seen it.
    pub(crate) fn new(
        number: u64,
        at: u64,
        input: Snapshot<N::Input>,
        outputs: Outputs<N::Mail>,
        note: Note<N, L, K>,
    ) -> Stepped<N, L, K>
        requires taken { Among (step_of number at input.value) note.taken }
        requires mail { AreSeen (λ m. N.Mail.letter m) note.seen outputs.mail }
        requires replies { AreTold note.told number outputs.replies }
        ensures { result ≡ handed (step_of number at input.value) outputs.mail outputs.replies }
    {
        let Outputs { mail, replies } = outputs;
        Stepped {
            number,
            at,
            input,
            mail: Queue::of(mail),
            replies: Queue::of(replies),
            note,
        }
    }

    /// Returns the number of the step.
    pub fn number(&self) -> u64
        ensures { result ≡ self.now.taken.number }
    {
        self.number
    }

    /// Takes the first message out, with a note that has seen it sent.
    pub fn next_letter(&mut self, book: &Book<N, L, K>) -> Option<Letter<N, L, K>>
        ensures taken { self.new.taken ≡ self.old.taken }
        ensures mail { self.old.mail ≡ option_to_list result ++ self.new.mail }
        ensures none { IfNone result (self.old.mail ≡ []) }
        ensures replies { self.new.replies ≡ self.old.replies }
    {
        match self.mail.next() {
            Some(message) => {
                let note = self.note.split(book);
                Some(Letter { message, note })
            }
            None => None,
        }
    }

    /// Takes the first reply out, with a note that has seen it returned.
    pub fn next_reply(&mut self, book: &Book<N, L, K>) -> Option<Reply<N, L, K>>
        ensures taken { self.new.taken ≡ self.old.taken }
        ensures number { IfSome result (λ r. r.0 ≡ self.old.taken.number) }
        ensures replies { self.old.replies ≡ option_to_list (option_map (λ r. r.1) result) ++ self.new.replies }
        ensures none { IfNone result (self.old.replies ≡ []) }
        ensures mail { self.new.mail ≡ self.old.mail }
    {
        let number = self.number;
        match self.replies.next() {
            Some(reply) => {
                let note = self.note.split(book);
                Some(Reply {
                    number,
                    reply,
                    note,
                })
            }
            None => None,
        }
    }

    /// Returns the note, which has seen the step with its input.
    pub fn into_note(self) -> Note<N, L, K>
        ensures { Among self.taken result.taken }
    {
        self.note
    }
}
