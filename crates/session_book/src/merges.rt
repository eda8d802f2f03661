//! The records of another book's sessions join a book.
#![tactic(auto)]

ghost use Rattle.std.specs.Prelude.{◌≡◌, ◌≤◌, ◌+◌, ◌++◌, ◌∷◌, [], List, length, IfOk, OnOk, if◌then◌else◌};
ghost use Rattle.cluster_base.specs.declared.identity.Session.{Session};
ghost use Rattle.value_compare.specs.declared.words.Reply.{Reply};
ghost use Rattle.history_model.specs.History as history;
ghost use Rattle.history_model.specs.History.{StatementNumber};
ghost use Rattle.session_book.specs.Records.{count_of, counted};
ghost use Rattle.history_model.specs.Merges.{seen_by_both};
ghost use Rattle.history_model.specs.Notes.{Note, same_session, seen};
ghost use Rattle.statement_views.specs.Views.{session_view};

use crate::book::{Book, Seen};
use bson_values::Memory;
use cluster_base::{Session, Stmt};
use statement_views::{SessionRecord, Sessions, StatementRecord};
use std::collections::BTreeMap;

impl Book {
    ghost use Rattle.session_book.specs.Books.{NotesAre, room_in, seen_in};
    ghost use Rattle.session_book.specs.Merges.{HasRoomFor, IsMerged};
    ghost use Rattle.session_book.specs.Records.{session_notes, statement_note, statement_notes};

    /// Makes room for the statements of these sessions, which a `merge` of equal ones then takes. Nothing is noted by it, so each
    /// number is seen as it was.
    ///
    /// # Errors
    /// `Memory` when out of memory, and where there would be 2^32 sessions; each number is seen as it was then too, and no room is
    /// lost.
    pub fn reserve_merge(&mut self, other: &Sessions) -> Result<(), Memory>
        ensures room { OnOk result (HasRoomFor self.new other.now.sessions.items) }
        ensures others { (t : Session) → room_in self.old t ≤ room_in self.new t }
        ensures same { (n : StatementNumber) → seen_in self.new n ≡ seen_in self.old n }
    {
        let mut counts = BTreeMap::new(*other.sessions.allocator());
        for record in &other.sessions {
            let count = added(&mut counts, record)?;
            let first = Stmt {
                session: record.session,
                txn: record.txn,
                index: 0,
            };
            self.reserve_run(&first, count)?;
        }
        Ok(())
    }

    /// Joins the records of another book's sessions to this one, where there is room for them: as if they were noted after all of
    /// its own, of one number the first. So of each session the greater transaction remains, with the statements that either book
    /// has of it, and of one index its own. Takes no memory.
    pub fn merge(&mut self, other: Sessions)
        requires room { HasRoomFor self.old other.sessions.items }
        ensures seen { IsMerged self.old other self.new }
        ensures so_far { (notes : List (Note Reply)) → NotesAre self.old notes → NotesAre self.new (notes ++ session_notes other.sessions.items) }
        ensures room { (t : Session) → room_in self.old t ≤ room_in self.new t + count_of (session_view t) other.sessions.items }
    {
        for record in other.sessions {
            self.merge_session(record);
        }
    }

    // Joins the records of one session.
    fn merge_session(&mut self, record: SessionRecord)
        requires room { length record.statements.items ≤ room_in self.old record.session }
        ensures seen { (n : StatementNumber) → seen_in self.new n ≡ seen_by_both (seen_in self.old n) (seen (statement_notes (session_view record.session) record.txn record.statements.items) n) }
        ensures room { (t : Session) → room_in self.old t ≤ room_in self.new t + (if same_session (session_view record.session) (session_view t) then length record.statements.items else 0) }
    {
        let session = record.session;
        let txn = record.txn;
        for statement in record.statements {
            self.merge_statement(session, txn, statement);
        }
    }

    // Notes a statement, if it is new.
    fn merge_statement(&mut self, session: Session, txn: i64, statement: StatementRecord)
        requires room { 1 ≤ room_in self.old session }
        ensures seen { (n : StatementNumber) → seen_in self.new n ≡ seen_by_both (seen_in self.old n) (seen (statement_note (session_view session) txn statement ∷ []) n) }
        ensures room { (t : Session) → room_in self.old t ≤ room_in self.new t + (if same_session (session_view session) (session_view t) then 1 else 0) }
    {
        let number = Stmt {
            session,
            txn,
            index: statement.index,
        };
        if self.is_new(&number) {
            self.note(&number, statement.time, statement.reply);
        }
    }
}

// Returns how many statements of the record's session there are in it and in those before it, which were counted. Fails when out of memory.
fn added(counts: &mut BTreeMap<Session, usize>, record: &SessionRecord) -> Result<usize, Memory>
    ensures count { IfOk result (λ count. count ≡ counted counts.new.entries (session_view record.now.session)) }
    ensures counts { OnOk result ((x : history.Session) → counted counts.new.entries x ≡ counted counts.old.entries x + count_of x (record.now ∷ [])) }
{
    let before = counts.get(&record.session).copied().unwrap_or(0);
    let Some(count) = before.checked_add(record.statements.len()) else {
        return Err(Memory);
    };
    counts.insert(record.session, count)?;
    Ok(count)
}
