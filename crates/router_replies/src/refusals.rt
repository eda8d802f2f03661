//! Refusals of reads, and of batches of cursors.

ghost use Rattle.std.specs.Prelude.{◌≡◌};
ghost use Rattle.command_replies.specs.Refusals.{refusal_view};
ghost use Rattle.command_replies.specs.AnswerMeanings.{answer_view};
ghost use Rattle.command_model.specs.Answers as model;
ghost use Rattle.base_model.specs.Errors.{cursor_not_found, overflow};
ghost use Rattle.base_model.specs.Refusals as refusals;
ghost use Rattle.node_model.specs.RouterRows as rows;

use cluster_base::{Code, Time};
use command_replies::{Answer, Evidence, Refusal};

/// Returns the refusal of a time that is ahead of the router's (MongoDB manual, "Read Concern").
pub fn time_ahead(greatest: Time) -> Refusal
    ensures { refusal_view result ≡ refusals.time_ahead greatest.0 }
{
    Refusal {
        code: Code::InvalidOptions,
        evidence: Evidence::Greatest { time: greatest },
    }
}

/// Returns the refusal of a read with a sum outside int64.
fn sum_too_great() -> Refusal
    ensures { refusal_view result ≡ refusals.without_evidence overflow }
{
    Refusal {
        code: Code::Overflow,
        evidence: Evidence::Nothing,
    }
}

/// Returns the refusal of a read whose result has this number of bytes.
fn too_much(bytes: u64) -> Refusal
    ensures { refusal_view result ≡ rows.too_much bytes }
{
    Refusal {
        code: Code::QueryExceededMemory,
        evidence: Evidence::Bytes { bytes },
    }
}

/// Returns the refusal of a cursor that is not open (MongoDB manual, "getMore").
pub fn not_open(cursor: i64) -> Refusal
    ensures { refusal_view result ≡ record { error = cursor_not_found; evidence = refusals.cursor_evidence cursor } }
{
    Refusal {
        code: Code::CursorNotFound,
        evidence: Evidence::Cursor { cursor },
    }
}

/// Returns the answer to a read with a sum outside int64.
pub fn overflow_answer() -> Answer
    ensures { answer_view result ≡ model.refusal_answer (refusals.without_evidence overflow) }
{
    Answer::Refused(sum_too_great())
}

/// Returns the answer to a read whose result has this number of bytes.
pub fn excess_answer(bytes: u64) -> Answer
    ensures { answer_view result ≡ model.refusal_answer (rows.too_much bytes) }
{
    Answer::Refused(too_much(bytes))
}
