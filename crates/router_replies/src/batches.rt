//! Answers with batches of documents.

ghost use Rattle.std.specs.Prelude.{◌≡◌, ◌≤◌, ◌^◌, ◌⊎◌, [], pos, IfOk, map, true, false, if◌then◌else◌};
ghost use Rattle.std.specs.Arc.{arc_value};
ghost use Rattle.command_replies.specs.AnswerMeanings.{answer_view};
ghost use Rattle.command_model.specs.Answers as model;
ghost use Rattle.node_model.specs.RouterNext as nexts;
ghost use Rattle.node_model.specs.RouterRows as rows;
ghost use Rattle.node_model.specs.States as states;
ghost use Rattle.router_requests.specs.Works.{telling_view};
ghost use Rattle.router_cursors.specs.CursorLists.{batch_of};
ghost use Rattle.router_cursors.specs.Marks.{is_left};

use bson_values::{Document, Memory};
use cluster_base::{Namespace, Time};
use command_replies::{Answer, Batch};
use command_words::GetMore;
use cursor_shelf::{Batch as Shown, FirstBatch};
use router_requests::Telling;
use std::alloc::Global;
use std::sync::Arc;

/// Documents that are shared, in order.
pub type DocumentList = Vec<Arc<Document, Global>>;

/// Returns the answer for a collection that does not exist at a time, or `Memory` if memory runs out.
pub fn empty_answer(
    alloc: Global,
    namespace: &Namespace,
    time: Time,
    telling: Telling,
) -> Result<Answer, Memory>
    ensures { (q : states.Open) → q.namespace ≡ namespace.now → IfOk result (λ answer. answer_view answer
        ≡ nexts.empty_answer q time.0 (telling_view telling)) }
{
    match telling {
        Telling::Batches { .. } => Ok(Answer::First(Batch {
            cursor: 0,
            namespace: namespace.copy()?,
            documents: Vec::new(alloc),
            time,
        })),
        Telling::Number => Ok(Answer::Count { count: 0, time }),
    }
}

/// Returns the answer with a first batch of documents of a namespace, which were read at a time; the number is that of the cursor with the others. Returns
/// `Memory` if memory runs out.
pub fn batch_answer(
    namespace: &Namespace,
    number: u64,
    documents: DocumentList,
    time: Time,
) -> Result<Answer, Memory>
    requires { number ≤ 2 ^ 62 }
    ensures { (q : states.Open) → q.namespace ≡ namespace.now →
        IfOk result (λ answer. answer_view answer ≡ model.first_answer (rows.batch_of q time.0 (pos number) (map arc_value documents.items))) }
{
    Ok(Answer::First(Batch {
        cursor: number as i64,
        namespace: namespace.copy()?,
        documents,
        time,
    }))
}

/// Returns whether a first batch is returned without a cursor: no other batch is requested, or no document remains.
pub fn is_only(single: bool, batch: &FirstBatch) -> bool
    ensures only { result ≡ true → (map arc_value batch.now.rest.items ≡ []) ⊎ (single ≡ true) }
    ensures other { result ≡ false → (is_left (map arc_value batch.now.rest.items) ≡ true) × (single ≡ false) }
{
    single || batch.rest.is_empty()
}

/// Returns the number of a cursor that is shown with a batch: 0 with the last one.
fn number_told(last: bool, number: i64) -> i64
    ensures { result ≡ (if last then pos 0 else number) }
{
    if last { 0 } else { number }
}

/// Returns the answer with the next batch of the cursor of that number.
pub fn next_answer(more: GetMore, shown: Shown) -> Answer
    ensures { answer_view result ≡ model.next_answer (batch_of more.cursor more.namespace shown) }
{
    Answer::Next(Batch {
        cursor: number_told(shown.is_last, more.cursor),
        namespace: more.namespace,
        documents: shown.documents,
        time: shown.time,
    })
}
