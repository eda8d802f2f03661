//! Answers to the creation of a collection and to a split (MongoDB manual, "shardCollection", "split").

ghost use Rattle.std.specs.Prelude.{◌≡◌, IfOk, if◌then◌else◌};
ghost use Rattle.base_model.specs.Errors.{namespace_not_sharded};
ghost use Rattle.base_model.specs.Refusals as refusals;
ghost use Rattle.command_model.specs.Answers as model;
ghost use Rattle.command_replies.specs.AnswerMeanings.{answer_view};

use bson_values::Memory;
use cluster_base::{Code, Namespace, Time};
use command_replies::{Answer, Evidence, Refusal};

/// Returns the answer that a collection was created, or `Memory` if memory runs out.
pub fn sharded_answer(namespace: &Namespace, time: Time) -> Result<Answer, Memory>
    ensures { IfOk result (λ answer. answer_view answer ≡ model.sharded_answer namespace.now time.0) }
{
    Ok(Answer::Sharded {
        namespace: namespace.copy()?,
        time,
    })
}

/// Returns the answer to a split: that a chunk begins at the key where the collection was found, or that there is none.
pub fn split_answer(found: bool, time: Time) -> Answer
    ensures { answer_view result ≡ (if found then model.changed_answer time.0
        else model.refusal_answer (refusals.without_evidence namespace_not_sharded)) }
{
    if found {
        Answer::Changed { time }
    } else {
        Answer::Refused(Refusal {
            code: Code::NamespaceNotSharded,
            evidence: Evidence::Nothing,
        })
    }
}
