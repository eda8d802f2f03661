//! The book: what a statement is against those that were noted.
#![tactic(auto, unfolding(crate::specs::Books::seen_in, crate::specs::Books::room_in))]

ghost use Rattle.std.specs.Prelude.{IsTrue, ◌≡◌, ◌≢◌, ◌≤◌, ◌+◌, ◌++◌, ◌∷◌, List, [], Some, None, OnOk, OnErr, if◌then◌else◌, IfOk};
ghost use Rattle.std.specs.Option.{ForSome};
ghost use Rattle.history_model.specs.History as history;
ghost use Rattle.history_model.specs.History.{StatementNumber};
ghost use Rattle.history_model.specs.Notes.{Note, new_statement, same_session, seen_with};
ghost use Rattle.cluster_base.specs.declared.identity.Session.{Session};
ghost use Rattle.value_compare.specs.declared.words.Reply.{Reply};
ghost use Rattle.statement_views.specs.Views.{number_view, session_view, sessions_view};
ghost use Rattle.history_model.specs.Sessions.{are_in_order};
ghost use Rattle.session_book.specs.Places.{AreApart, place_of};

use crate::session::{Kept, push_session};
use bson_values::Memory;
use cluster_base::{Session, Stmt, Time};
use statement_views::{Sessions, StatementRecord};
use std::alloc::Global;
use std::collections::BTreeMap;
use value_compare::Reply;

/// What a statement's number is against the book.
#[derive(Drop)]
pub enum Seen<'a> {
    /// Nothing was noted under it, and nothing under a greater transaction of its session.
    New,
    /// It was done.
    Done {
        /// The time of its entry.
        time: Time,
        /// Its reply.
        reply: &'a Reply,
    },
    /// Its session has this greater transaction.
    Older(i64),
}

// Returns whether the identifiers are one. They are compared for each statement, which is cheaper byte by byte than as slices of any length.
fn same_id(id: &[u8; 16], other: &[u8; 16]) -> bool
    ensures { IsTrue result → id.now ≡ other.now }
{
    for i in 0..16 {
        if id[i] != other[i] {
            return false;
        }
    }
    true
}

// Returns whether both are a session of one identifier, or one of a router's.
fn is_same(session: &Session, other: &Session) -> bool
    ensures { IsTrue result → session_view session.now ≡ session_view other.now }
{
    match (session, other) {
        (Session::Client(id), Session::Client(other)) => same_id(id, other),
        _ => session == other,
    }
}

/// A session, and the place of what is stored of it.
#[derive(Clone, Copy)]
struct Place {
    session: Session,
    place: u32,
}

/// The reply to each numbered statement (MongoDB manual, "Retryable Writes" and "Server Sessions"). The map has the places of what is
/// stored of sessions and not what is stored, so that what a search goes through is small.
///
/// A caller reserves for a statement, notes it, and proceeds to the next: one `reserve` makes room for one `note`, which then can't
/// fail.
#[derive(Drop)]
pub struct Book {
    alloc: Global,
    places: BTreeMap<Session, u32>,
    kept: Vec<Kept>,
    // That of the session begun or noted in last: the statements of a message have one session, so that most need no search.
    latest: Option<Place>,
    ghost known: { ForSome latest (λ p. place_of places.entries (session_view p.session) ≡ Some p.place) },
    ghost apart: { AreApart places.entries kept.items },
}

impl Book {
    ghost use Rattle.session_book.specs.Books.{NotesAre, is_new, kept_of, note_view, room_in, seen_in, seen_view};
    ghost use Rattle.session_book.specs.Records.{session_notes};

    /// Returns a book in which nothing is noted.
    pub fn new(alloc: Global) -> Book
        ensures so_far { NotesAre result [] }
    {
        Book {
            alloc,
            places: BTreeMap::new(alloc),
            kept: Vec::new(alloc),
            latest: None,
        }
    }

    /// Returns how the statement relates to those that were noted.
    pub fn look(&self, s: &Stmt) -> Seen
        ensures { seen_view result ≡ seen_in self.now (number_view s.now) }
    {
        match self.place(&s.session) {
            Some(place) => self.kept[place as usize].look(s.txn, s.index),
            None => Seen::New,
        }
    }

    /// Returns whether the statement is new.
    pub fn is_new(&self, s: &Stmt) -> bool
        ensures { result ≡ is_new (seen_in self.now (number_view s.now)) }
    {
        matches!(self.look(s), Seen::New)
    }

    /// Returns each session of which a statement was noted, with its greatest transaction and all statements that were noted of that, in the
    /// order of sessions and of indexes: what the whole book is.
    ///
    /// # Errors
    /// `Memory` when out of memory.
    pub fn floors(&self) -> Result<Sessions, Memory>
        ensures notes { IfOk result (λ s. NotesAre self.now (session_notes s.sessions.items)) }
        ensures order { IfOk result (λ s. IsTrue (are_in_order (sessions_view s))) }
    {
        let mut sessions = Vec::new(self.alloc);
        for (session, place) in &self.places {
            if let Some(kept) = self.kept.get(*place as usize) {
                push_session(&mut sessions, *session, kept)?;
            }
        }
        Ok(Sessions { sessions })
    }

    // Returns the place of what is stored of a session, if something is.
    fn place(&self, session: &Session) -> Option<u32>
        ensures { result ≡ place_of self.now.places.entries (session_view session.now) }
    {
        match &self.latest {
            Some(latest) if is_same(&latest.session, session) => Some(latest.place),
            _ => self.places.get(session).copied(),
        }
    }

    /// Makes room for one more statement of its session. Nothing is noted by it, so each number is seen as it was.
    ///
    /// # Errors
    /// `Memory` if memory runs out, and for a new session where 2^32 are known; each number is seen as it was then too, and no room is lost.
    pub fn reserve(&mut self, s: &Stmt) -> Result<(), Memory>
        ensures room { OnOk result (1 ≤ room_in self.new s.now.session) }
        ensures others { (t : Session) → room_in self.old t ≤ room_in self.new t }
        ensures same { (n : StatementNumber) → seen_in self.new n ≡ seen_in self.old n }
    {
        if let Some(place) = self.place(&s.session) {
            let kept = &mut self.kept[place as usize];
            return kept.reserve();
        }
        let kept = Kept::new(self.alloc, s.txn);
        self.begin(s.session, kept)?;
        Ok(())
    }

    /// Makes room for so many statements of this one's session. Nothing is noted by it, so each number is seen as it was.
    ///
    /// # Errors
    /// `Memory` if memory runs out, and for a new session where 2^32 are known; each number is seen as it was then too, and no room is lost.
    pub fn reserve_run(&mut self, s: &Stmt, count: usize) -> Result<(), Memory>
        ensures room { OnOk result (count ≤ room_in self.new s.now.session) }
        ensures others { (t : Session) → room_in self.old t ≤ room_in self.new t }
        ensures same { (n : StatementNumber) → seen_in self.new n ≡ seen_in self.old n }
    {
        if let Some(place) = self.place(&s.session) {
            let kept = &mut self.kept[place as usize];
            return kept.reserve_run(count);
        }
        let kept = Kept::with_room(self.alloc, s.txn, count)?;
        self.begin(s.session, kept)?;
        Ok(())
    }

    // Stores this of a session of which nothing is stored. Returns `Memory` if memory runs out, and where 2^32 are known; then all is as it was.
    fn begin(&mut self, s: Session, kept: Kept) -> Result<(), Memory>
        requires { place_of self.old.places.entries (session_view s) ≡ None }
        ensures ok { OnOk result ((x : history.Session) → kept_of self.new x ≡ (if same_session (session_view s) x then Some kept else kept_of self.old x)) }
        ensures err { OnErr result ((x : history.Session) → kept_of self.new x ≡ kept_of self.old x) }
    {
        let Ok(place) = u32::try_from(self.kept.len()) else {
            return Err(Memory);
        };
        self.kept.reserve(1)?;
        self.places.insert(s, place)?;
        self.kept.push_reserved(kept);
        self.latest = Some(Place { session: s, place });
        Ok(())
    }

    /// Notes a statement that is new, with the time of its entry and its reply, where there is room for it.
    pub fn note(&mut self, s: &Stmt, time: Time, reply: Reply)
        requires room { 1 ≤ room_in self.old s.now.session }
        requires new { seen_in self.old (number_view s.now) ≡ new_statement }
        ensures seen { (n : StatementNumber) → seen_in self.new n ≡ seen_with (note_view s.now time reply) n (seen_in self.old n) }
        ensures so_far { (notes : List (Note Reply)) → NotesAre self.old notes → NotesAre self.new (notes ++ note_view s.now time reply ∷ []) }
        ensures room { (t : Session) → room_in self.old t ≤ room_in self.new t + 1 }
        ensures other_rooms { (t : Session) → session_view t ≢ session_view s.now.session → room_in self.old t ≤ room_in self.new t }
    {
        if let Some(place) = self.place(&s.session) {
            self.latest = Some(Place {
                session: s.session,
                place,
            });
            let kept = &mut self.kept[place as usize];
            kept.note(
                s.txn,
                StatementRecord {
                    index: s.index,
                    time,
                    reply,
                },
            );
        }
    }
}
