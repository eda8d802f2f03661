//! What is stored of one session.

ghost use Rattle.std.specs.Prelude.{◌≡◌, ◌<◌, ◌≤◌, ◌+◌, ◌++◌, ◌∷◌, ◌⊎◌, ◌==◌, ℕ, ℤ, [], Some, None, IfOk, IfErr, IfSome, OnOk, if◌then◌else◌};
ghost use Rattle.std.specs.List.{insert};
ghost use Rattle.std.specs.Option.{option_map};
ghost use Rattle.std.specs.Vec.{vec_capacity, vec_len};
ghost use Rattle.history_model.specs.Notes.{new_statement};
ghost use Rattle.session_book.specs.Statements.{Holds, IsGapFor, IsRising, notes_in, seen_after, seen_among, with_index};
ghost use Rattle.session_book.specs.Books.{seen_view};
ghost use Rattle.session_book.specs.Records.{session_notes, statement_notes};
ghost use Rattle.statement_views.specs.Views.{session_view};
ghost use Rattle.statement_views.specs.declared.sessions.SessionRecord.{SessionRecord};

use crate::book::Seen;
use bson_values::Memory;
use cluster_base::Session;
use statement_views::{SessionRecord, StatementRecord};
use std::alloc::Global;
use std::marker::Model;
use value_compare::Reply;

/// The statements that were done in the greatest transaction of a session, by their index. The first is stored apart, since most sessions
/// have no other: a look at it then reaches no other memory.
#[derive(Drop)]
pub struct Kept {
    txn: i64,
    first: Option<StatementRecord>,
    rest: Vec<StatementRecord>,
}

impl Model for Kept {
    ghost use Rattle.std.specs.Prelude.{◌-◌};
    ghost use Rattle.std.specs.Vec.{vec_capacity, vec_len};
    ghost use Rattle.session_book.specs.Statements.{IsWhole, Statements, notes_with, room_with};
    ghost use Rattle.session_book.specs.Code.{statements_code};

    ghost Value = { Statements };

    ghost coded = { statements_code };

    ghost view = { λ k. record { transaction = k.txn; notes = notes_with k.first k.rest.items; room = room_with k.first (vec_capacity k.rest - vec_len k.rest) } };

    ghost invariant = { λ k. IsWhole k.first k.rest.items };
}

impl Kept {
    /// Returns a session in which nothing was done yet, with room for a statement.
    pub fn new(alloc: Global, txn: i64) -> Kept
        ensures none { result.notes ≡ [] }
        ensures room { 1 ≤ result.room }
    {
        Kept {
            txn,
            first: None,
            rest: Vec::new(alloc),
        }
    }

    /// Returns a session in which nothing was done yet, with room for so many statements. Returns `Memory` if memory runs out.
    pub fn with_room(alloc: Global, txn: i64, count: usize) -> Result<Kept, Memory>
        ensures none { IfOk result (λ k. k.notes ≡ []) }
        ensures room { IfOk result (λ k. count ≤ k.room) }
    {
        let rest = Vec::with_capacity(alloc, count.saturating_sub(1))?;
        Ok(Kept {
            txn,
            first: None,
            rest,
        })
    }

    /// Returns what a statement of the session is.
    pub fn look(&self, txn: i64, index: u32) -> Seen
        ensures { seen_view result ≡ seen_among self.now txn index }
    {
        if txn < self.txn && self.first.is_some() {
            return Seen::Older(self.txn);
        }
        if txn != self.txn {
            return Seen::New;
        }
        match self.find(index) {
            Some(noted) => Seen::Done {
                time: noted.time,
                reply: &noted.reply,
            },
            None => Seen::New,
        }
    }

    /// Returns the greatest transaction.
    pub fn transaction(&self) -> i64
        ensures { result ≡ self.now.transaction }
    {
        self.txn
    }

    /// Copies of the statements. Fails when out of memory.
    pub fn copies(&self, alloc: Global) -> Result<Vec<StatementRecord>, Memory>
        ensures copies { IfOk result (λ v. v.items ≡ self.now.notes) }
        ensures rising { IfOk result (λ v. IsRising v.items) }
    {
        let mut copies = Vec::new(alloc);
        if let Some(first) = &self.first {
            push_copy(&mut copies, first)?;
        }
        push_copies(&mut copies, &self.rest)?;
        Ok(copies)
    }

    // Returns the statement of that index of the greatest transaction.
    fn find(&self, index: u32) -> Option<&StatementRecord>
        ensures { option_map (λ n. n.now) result ≡ with_index index self.now.notes }
    {
        match &self.first {
            None => None,
            Some(first) if first.index == index => Some(first),
            Some(_) => find_among(&self.rest, index),
        }
    }

    /// Makes room for a statement. Returns `Memory` if memory runs out. What was done stays.
    pub fn reserve(&mut self) -> Result<(), Memory>
        ensures room { OnOk result (1 ≤ self.new.room) }
        ensures no_less { self.old.room ≤ self.new.room }
        ensures transaction { self.new.transaction ≡ self.old.transaction }
        ensures notes { self.new.notes ≡ self.old.notes }
    {
        self.rest.reserve(1)?;
        Ok(())
    }

    /// Makes room for so many statements. Returns `Memory` if memory runs out. What was done stays.
    pub fn reserve_run(&mut self, count: usize) -> Result<(), Memory>
        ensures room { OnOk result (count ≤ self.new.room) }
        ensures no_less { self.old.room ≤ self.new.room }
        ensures transaction { self.new.transaction ≡ self.old.transaction }
        ensures notes { self.new.notes ≡ self.old.notes }
    {
        self.rest.reserve(count)?;
        Ok(())
    }

    /// Notes a statement that is new, where there is room. Those of a lesser transaction can get no reply any more, and are dropped.
    pub fn note(&mut self, txn: i64, noted: StatementRecord)
        requires room { 1 ≤ self.old.room }
        requires new { seen_among self.old txn noted.index ≡ new_statement }
        ensures seen { (t : ℤ) (i : ℕ) → seen_among self.new t i ≡ seen_after txn noted t i (seen_among self.old t i) }
        ensures room { self.old.room ≤ self.new.room + 1 }
    {
        self.begin(txn);
        self.put(noted);
    }

    // Begins that transaction, where it is not the current one.
    fn begin(&mut self, txn: i64)
        ensures transaction { self.new.transaction ≡ txn }
        ensures notes { self.new.notes ≡ notes_in txn self.old }
        ensures room { self.old.room ≤ self.new.room }
    {
        if txn != self.txn {
            self.first = None;
            self.rest.clear();
            self.txn = txn;
        }
    }

    // Inserts a statement whose index none has, where there is room.
    fn put(&mut self, noted: StatementRecord)
        requires room { 1 ≤ self.old.room }
        requires new { with_index noted.index self.old.notes ≡ None }
        ensures notes { (i : ℕ) → with_index i self.new.notes ≡ (if noted.index == i then Some noted else with_index i self.old.notes) }
        ensures transaction { self.new.transaction ≡ self.old.transaction }
        ensures room { self.old.room ≤ self.new.room + 1 }
    {
        match self.first.take() {
            None => self.first = Some(noted),
            Some(first) => {
                if noted.index < first.index {
                    self.first = Some(noted);
                    put_at(&mut self.rest, 0, first);
                } else {
                    self.first = Some(first);
                    let at = gap_among(&self.rest, noted.index);
                    put_at(&mut self.rest, at, noted);
                }
            }
        }
    }
}

// Adds what is stored of a session, if something is, after others. Fails when out of memory.
pub fn push_session(
    sessions: &mut Vec<SessionRecord>,
    session: Session,
    kept: &Kept,
) -> Result<(), Memory>
    ensures items { OnOk result ((sessions.new.items ≡ sessions.old.items) ⊎ ((r : SessionRecord) × (sessions.new.items ≡ sessions.old.items ++ r ∷ []) × (r.session ≡ session) × IsRising r.statements.items)) }
    ensures notes { OnOk result (session_notes sessions.new.items ≡ session_notes sessions.old.items ++ statement_notes (session_view session) kept.now.transaction kept.now.notes) }
{
    let statements = kept.copies(*sessions.allocator())?;
    if !statements.is_empty() {
        sessions.push(SessionRecord {
            session,
            txn: kept.transaction(),
            statements,
        })?;
    }
    Ok(())
}

// Adds copies of statements after others. Fails when out of memory.
fn push_copies(
    copies: &mut Vec<StatementRecord>,
    statements: &[StatementRecord],
) -> Result<(), Memory>
    ensures { OnOk result (copies.new.items ≡ copies.old.items ++ statements.now) }
{
    for statement in statements {
        push_copy(copies, statement)?;
    }
    Ok(())
}

// Adds a copy of a statement after others. Fails when out of memory.
fn push_copy(copies: &mut Vec<StatementRecord>, statement: &StatementRecord) -> Result<(), Memory>
    ensures { OnOk result (copies.new.items ≡ copies.old.items ++ statement.now ∷ []) }
{
    let reply = copy_of(&statement.reply)?;
    copies.push(StatementRecord {
        index: statement.index,
        time: statement.time,
        reply,
    })?;
    Ok(())
}

// Returns a copy of the reply to a statement. Fails when out of memory.
fn copy_of(reply: &Reply) -> Result<Reply, Memory>
    ensures { IfOk result (λ r. r ≡ reply.now) }
{
    let upserted = match &reply.upserted {
        Some(key) => Some(key.copy()?),
        None => None,
    };
    Ok(Reply {
        n: reply.n,
        modified: reply.modified,
        upserted,
        code: reply.code,
    })
}

// Returns the statement of that index.
fn find_among(notes: &[StatementRecord], index: u32) -> Option<&StatementRecord>
    requires { IsRising notes.now }
    ensures { option_map (λ n. n.now) result ≡ with_index index notes.now }
{
    match place_among(notes, index) {
        Ok(at) => Some(&notes[at]),
        Err(_) => None,
    }
}

// Where a statement would go whose index none has.
fn gap_among(notes: &[StatementRecord], index: u32) -> usize
    requires rising { IsRising notes.now }
    requires none { with_index index notes.now ≡ None }
    ensures { IsGapFor notes.now index result }
{
    match place_among(notes, index) {
        Ok(at) => at,
        Err(at) => at,
    }
}

// Returns the place of the statement of that index, if there is one for each index from the first on: those of most commands were all done.
fn place_in_row(notes: &[StatementRecord], index: u32) -> Option<usize>
    requires { IsRising notes.now }
    ensures { IfSome result (Holds notes.now index) }
{
    let first = notes.first()?;
    let place = index.checked_sub(first.index)? as usize;
    match notes.get(place) {
        Some(noted) if noted.index == index => Some(place),
        _ => None,
    }
}

// Returns the place of the statement of that index, or where it would go, by a search among all.
fn search_among(notes: &[StatementRecord], index: u32) -> Result<usize, usize>
    requires { IsRising notes.now }
    ensures found { IfOk result (Holds notes.now index) }
    ensures absent { IfErr result (IsGapFor notes.now index) }
{
    notes.binary_search_by_key(&index, |noted| noted.index)
}

// Returns the place of the statement of that index, or where it would go.
fn place_among(notes: &[StatementRecord], index: u32) -> Result<usize, usize>
    requires { IsRising notes.now }
    ensures found { IfOk result (Holds notes.now index) }
    ensures absent { IfErr result (IsGapFor notes.now index) }
{
    match place_in_row(notes, index) {
        Some(place) => Ok(place),
        None => search_among(notes, index),
    }
}

// Inserts a statement at its place, where there is room.
fn put_at(notes: &mut Vec<StatementRecord>, at: usize, noted: StatementRecord)
    requires place { at ≤ vec_len notes.old }
    requires room { vec_len notes.old < vec_capacity notes.old }
    ensures items { notes.new.items ≡ insert notes.old.items at noted }
    ensures len { vec_len notes.new ≡ vec_len notes.old + 1 }
    ensures capacity { vec_capacity notes.old ≤ vec_capacity notes.new }
{
    let _ = notes.insert(at, noted);
}
