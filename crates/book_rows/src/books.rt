//! Steps on two books.

use crate::words::{session_of, statement_of, word};
use cluster_base::Time;
use fixtures::{RowFault, Rows, field, number};
use session_book::{Book, Seen};
use statement_views::{SessionRecord, StatementRecord};
use std::alloc::Global;
use value_compare::Reply;

/// One step after another on two books, each of which is `own` or `other`: `start` begins with empty ones;
/// `note | BOOK | SESSION TXN INDEX | TIME | N` notes a statement that is new; `look | BOOK | SESSION TXN INDEX | ANSWER` holds where the
/// answer is `new`, `done | TIME | N` or `older | TXN`; `merge` merges the other's floors into the own book; and
/// `floors | BOOK | SESSION TXN INDEX INDEX .. | ..` holds where these are its floors, in order.
#[derive(Drop)]
pub struct Books {
    own: Book,
    other: Book,
}

impl Rows for Books {
    fn holds(&mut self, alloc: Global, row: &str) -> Result<bool, RowFault> {
        let (verb, rest) = field(row);
        match verb {
            "start" => self.start(alloc),
            "note" => self.note(rest),
            "look" => self.look(rest),
            "merge" => self.merge(),
            "floors" => self.floors(rest),
            _ => Err(RowFault::Form),
        }
    }
}

impl Books {
    /// Returns two books in which nothing is noted.
    pub fn new(alloc: Global) -> Books {
        Books {
            own: Book::new(alloc),
            other: Book::new(alloc),
        }
    }

    fn start(&mut self, alloc: Global) -> Result<bool, RowFault> {
        *self = Books::new(alloc);
        Ok(true)
    }

    fn note(&mut self, row: &str) -> Result<bool, RowFault> {
        let (book, rest) = field(row);
        match book {
            "own" => note(&mut self.own, rest),
            "other" => note(&mut self.other, rest),
            _ => Err(RowFault::Form),
        }
    }

    fn look(&self, row: &str) -> Result<bool, RowFault> {
        let (book, rest) = field(row);
        is_seen(self.book(book)?, rest)
    }

    fn merge(&mut self) -> Result<bool, RowFault> {
        let floors = self.other.floors()?;
        self.own.reserve_merge(&floors)?;
        self.own.merge(floors);
        Ok(true)
    }

    fn floors(&self, row: &str) -> Result<bool, RowFault> {
        let (book, rest) = field(row);
        let floors = self.book(book)?.floors()?;
        are_floors(&floors.sessions, rest)
    }

    fn book(&self, word: &str) -> Result<&Book, RowFault> {
        match word {
            "own" => Ok(&self.own),
            "other" => Ok(&self.other),
            _ => Err(RowFault::Form),
        }
    }
}

// Notes the statement of a row, and returns whether it is new.
fn note(book: &mut Book, row: &str) -> Result<bool, RowFault> {
    let (stmt, rest) = field(row);
    let (time, n) = field(rest);
    let stmt = statement_of(stmt)?;
    let time = Time(number(time)?);
    let n = number(n)?;
    if !book.is_new(&stmt) {
        return Ok(false);
    }
    book.reserve(&stmt)?;
    let reply = Reply {
        n,
        modified: 0,
        upserted: None,
        code: 0,
    };
    book.note(&stmt, time, reply);
    Ok(true)
}

// Returns whether the book has this answer to the statement of a row.
fn is_seen(book: &Book, row: &str) -> Result<bool, RowFault> {
    let (stmt, rest) = field(row);
    let (answer, rest) = field(rest);
    let stmt = statement_of(stmt)?;
    match book.look(&stmt) {
        Seen::New => Ok(answer == "new"),
        Seen::Older(txn) => Ok(answer == "older" && number(rest) == Ok(txn)),
        Seen::Done { time, reply } => Ok(answer == "done" && is_done(time, reply.n, rest)),
    }
}

// Returns whether the time and the number are those of a row.
fn is_done(time: Time, n: u32, row: &str) -> bool {
    let (at, wanted) = field(row);
    number(at) == Ok(time.0) && number(wanted) == Ok(n)
}

// Returns whether the records are those of a row, in order.
fn are_floors(records: &[SessionRecord], row: &str) -> Result<bool, RowFault> {
    let mut left = row;
    for record in records {
        let (words, rest) = field(left);
        if words.is_empty() || !is_floor(record, words)? {
            return Ok(false);
        }
        left = rest;
    }
    Ok(left.is_empty())
}

// Returns whether the record is that of the words: its session, transaction and indexes.
fn is_floor(record: &SessionRecord, words: &str) -> Result<bool, RowFault> {
    let (session, rest) = word(words);
    let (txn, indexes) = word(rest);
    let session = session_of(session)?;
    let txn: i64 = number(txn)?;
    Ok(record.session == session && record.txn == txn && are_indexes(&record.statements, indexes)?)
}

// Returns whether the statements have the indexes of the words, in order.
fn are_indexes(statements: &[StatementRecord], words: &str) -> Result<bool, RowFault> {
    let mut left = words;
    for statement in statements {
        let (index, rest) = word(left);
        if statement.index != number::<u32>(index)? {
            return Ok(false);
        }
        left = rest;
    }
    Ok(left.is_empty())
}
