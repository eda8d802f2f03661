//! Reading what is stored of sessions.

ghost use Rattle.std.specs.Prelude.{◌≡◌, ◌<◌, ◌^◌, None, length, map, nat_lt, true, IfOk};
ghost use Rattle.std.specs.List.{AllByRecursion};
ghost use Rattle.std.specs.Option.{option_map};
ghost use Rattle.history_model.specs.Sessions.{are_in_order, bytes_before, indices_rise, is_next, session_before};
ghost use Rattle.statement_views.specs.Views.{session_record_view, session_view, sessions_view, statement_record_view};
ghost use Rattle.shard_records.specs.Meanings.{record_view};
ghost use Rattle.shard_records.specs.Sizes.{IsWritableSession, IsWritableStatement};
ghost use Rattle.record_parts.specs.Readers.{items_at, list_at};
ghost use Rattle.record_reader.specs.RecordReaders.{receive_done_at, session_record_at, sessions_in, statement_record_at};
ghost use Rattle.record_parts.specs.Finds.{Finds};
ghost use Rattle.shard_records.specs.Readable.{IsHeld};

use crate::moves::read_request;
use cluster_base::{Session, Time};
use record_parts::{RecordFault, read_reply, read_session, read_u32, read_u64};
use shard_records::{ReceiveDone, Record};
use statement_views::{SessionRecord, Sessions, StatementRecord};
use std::alloc::Global;

/// Reads a statement that was done.
#[tactic(auto, unfolding(crate::specs::RecordReaders::statement_record_at))]
fn read_statement_record(
    alloc: Global,
    bytes: &[u8],
) -> Result<(StatementRecord, &[u8]), RecordFault>
    ensures found { Finds (λ x. (statement_record_view x.0, x.1.now)) result (statement_record_at bytes.now) }
    ensures fits { IfOk result (λ x. IsWritableStatement (statement_record_view x.0)) }
{
    let (index, rest) = read_u32(bytes)?;
    let (time, rest) = read_u64(rest)?;
    let (reply, rest) = read_reply(alloc, rest)?;
    let kept = StatementRecord {
        index,
        time: Time(time),
        reply,
    };
    Ok((kept, rest))
}

/// Reads so many statements.
#[tactic(auto, using(record_parts::proofs::Items::begins_empty, record_parts::proofs::Items::none_held))]
fn read_each_statement(
    alloc: Global,
    count: u32,
    bytes: &[u8],
) -> Result<(Vec<StatementRecord>, &[u8]), RecordFault>
    ensures found { Finds (λ x. (map statement_record_view x.0.items, x.1.now)) result (items_at statement_record_at count bytes.now) }
    ensures count { IfOk result (λ x. length x.0.items ≡ count) }
    ensures held { IfOk result (λ x. AllByRecursion IsWritableStatement (map statement_record_view x.0.items)) }
{
    let mut statements = Vec::new(alloc);
    let mut left = bytes;
    for _ in 0..count {
        let (kept, rest) = read_statement_record(alloc, left)?;
        statements.push(kept)?;
        left = rest;
    }
    Ok((statements, left))
}

/// Reads the statements of a session: how many, and each.
#[tactic(auto, unfolding(record_parts::specs::Readers::list_at))]
fn read_statements(
    alloc: Global,
    bytes: &[u8],
) -> Result<(Vec<StatementRecord>, &[u8]), RecordFault>
    ensures found { Finds (λ x. (map statement_record_view x.0.items, x.1.now)) result (list_at statement_record_at bytes.now) }
    ensures count { IfOk result (λ x. length x.0.items < 2 ^ 32) }
    ensures held { IfOk result (λ x. AllByRecursion IsWritableStatement (map statement_record_view x.0.items)) }
{
    let (count, rest) = read_u32(bytes)?;
    read_each_statement(alloc, count, rest)
}

/// Reads what is stored of a session.
#[tactic(auto, unfolding(crate::specs::RecordReaders::session_record_at), using(crate::proofs::Held::session_held))]
fn read_session_record(alloc: Global, bytes: &[u8]) -> Result<(SessionRecord, &[u8]), RecordFault>
    ensures found { Finds (λ x. (session_record_view x.0, x.1.now)) result (session_record_at bytes.now) }
    ensures fits { IfOk result (λ x. IsWritableSession (session_record_view x.0)) }
{
    let (session, rest) = read_session(bytes)?;
    let (txn, rest) = read_u64(rest)?;
    let (statements, rest) = read_statements(alloc, rest)?;
    let kept = SessionRecord {
        session,
        txn: txn.cast_signed(),
        statements,
    };
    Ok((kept, rest))
}

/// Reads so many sessions.
#[tactic(auto, using(record_parts::proofs::Items::begins_empty, record_parts::proofs::Items::none_held))]
fn read_each_session(
    alloc: Global,
    count: u32,
    bytes: &[u8],
) -> Result<(Vec<SessionRecord>, &[u8]), RecordFault>
    ensures found { Finds (λ x. (map session_record_view x.0.items, x.1.now)) result (items_at session_record_at count bytes.now) }
    ensures count { IfOk result (λ x. length x.0.items ≡ count) }
    ensures held { IfOk result (λ x. AllByRecursion IsWritableSession (map session_record_view x.0.items)) }
{
    let mut sessions = Vec::new(alloc);
    let mut left = bytes;
    for _ in 0..count {
        let (kept, rest) = read_session_record(alloc, left)?;
        sessions.push(kept)?;
        left = rest;
    }
    Ok((sessions, left))
}

/// Reads sessions, in any order: how many, and each.
#[tactic(auto, unfolding(record_parts::specs::Readers::list_at))]
fn read_list(alloc: Global, bytes: &[u8]) -> Result<(Vec<SessionRecord>, &[u8]), RecordFault>
    ensures found { Finds (λ x. (map session_record_view x.0.items, x.1.now)) result (list_at session_record_at bytes.now) }
    ensures count { IfOk result (λ x. length x.0.items < 2 ^ 32) }
    ensures held { IfOk result (λ x. AllByRecursion IsWritableSession (map session_record_view x.0.items)) }
{
    let (count, rest) = read_u32(bytes)?;
    read_each_session(alloc, count, rest)
}

/// Returns whether the bytes come first.
#[tactic(auto, using(crate::proofs::Orders::same_byte, crate::proofs::Orders::other_byte))]
fn bytes_before(bytes: &[u8; 16], others: &[u8; 16]) -> bool
    ensures { result ≡ bytes_before bytes.now others.now }
{
    for i in 0..16 {
        if bytes[i] != others[i] {
            return bytes[i] < others[i];
        }
    }
    false
}

/// Returns whether a session comes before another.
fn is_before(session: &Session, other: &Session) -> bool
    ensures { result ≡ session_before (session_view session.now) (session_view other.now) }
{
    match (session, other) {
        (Session::Client(id), Session::Client(other)) => bytes_before(id, other),
        (Session::Client(_), Session::Router { .. }) => true,
        (Session::Router { .. }, Session::Client(_)) => false,
        (
            Session::Router {
                node,
                life,
                request,
            },
            Session::Router {
                node: other_node,
                life: other_life,
                request: other_request,
            },
        ) => {
            node.0 < other_node.0
                || (node.0 == other_node.0
                    && (*life < *other_life || (*life == *other_life && *request < *other_request)))
        }
    }
}

/// Returns whether an index may come after the last one.
fn is_next_index(last: Option<u32>, index: u32) -> bool
    ensures { result ≡ is_next nat_lt last index }
{
    match last {
        None => true,
        Some(last) => last < index,
    }
}

/// Returns whether a session may come after the last one.
fn is_next_session(last: &Option<Session>, session: &Session) -> bool
    ensures { result ≡ is_next session_before (option_map session_view last.now) (session_view session.now) }
{
    match last {
        None => true,
        Some(last) => is_before(last, session),
    }
}

/// Returns whether the indices of statements rise.
fn indices_rise(statements: &[StatementRecord]) -> bool
    ensures { result ≡ indices_rise None (map statement_record_view statements.now) }
{
    let mut last = None;
    for kept in statements {
        if !is_next_index(last, kept.index) {
            return false;
        }
        last = Some(kept.index);
    }
    true
}

/// Returns whether the sessions are in order, each once, and so the indices of each.
fn are_in_order(sessions: &[SessionRecord]) -> bool
    ensures { result ≡ are_in_order (map session_record_view sessions.now) }
{
    let mut last = None;
    for kept in sessions {
        if !is_next_session(&last, &kept.session) || !indices_rise(&kept.statements) {
            return false;
        }
        last = Some(kept.session);
    }
    true
}

/// Returns the sessions, if they are in order.
fn in_order(sessions: Vec<SessionRecord>) -> Result<Sessions, RecordFault>
    requires count { length sessions.items < 2 ^ 32 }
    requires held { AllByRecursion IsWritableSession (map session_record_view sessions.items) }
    ensures found { Finds (λ s. sessions_view s) result (sessions_in (map session_record_view sessions.items)) }
    ensures count { IfOk result (λ s. length (sessions_view s) < 2 ^ 32) }
    ensures held { IfOk result (λ s. AllByRecursion IsWritableSession (sessions_view s)) }
    ensures order { IfOk result (λ s. are_in_order (sessions_view s) ≡ true) }
{
    if are_in_order(&sessions) {
        Ok(Sessions { sessions })
    } else {
        Err(RecordFault::NoRecord)
    }
}

/// Reads that the recipient has all documents.
#[tactic(auto, unfolding(crate::specs::RecordReaders::receive_done_at), using(crate::proofs::Held::done_held))]
pub(crate) fn read_receive_done(alloc: Global, bytes: &[u8]) -> Result<Record, RecordFault>
    ensures found { Finds (λ r. record_view r) result (receive_done_at bytes.now) }
    ensures held { IfOk result (λ r. IsHeld (record_view r)) }
{
    let (id, rest) = read_request(bytes)?;
    let (list, _rest) = read_list(alloc, rest)?;
    let sessions = in_order(list)?;
    Ok(Record::ReceiveDone(ReceiveDone { id, sessions }))
}
