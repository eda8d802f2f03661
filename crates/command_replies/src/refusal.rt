//! Why requests are refused.

ghost use Rattle.std.specs.Prelude.{◌≡◌, IfOk};
ghost use Rattle.base_model.specs.Errors.{exceeded_memory_limit, max_time_expired, shutdown_in_progress, stale_config};
ghost use Rattle.base_model.specs.Refusals as history;
ghost use Rattle.base_model.specs.Refusals.{without_evidence};
ghost use Rattle.base_model.specs.ReplyParts.{refusal_reply};
ghost use Rattle.command_replies.specs.Refusals.{refusal_view, shown_tries_view};

use crate::evidence::{Evidence, ShownTry, add_evidence};
use crate::parts::{add_number, add_text};
use bson_values::{Document, Memory};
use cluster_base::{Code, NodeId};
use std::alloc::Global;

/// Why a request is refused: the error, and its evidence.
#[derive(Debug, Drop)]
pub struct Refusal {
    pub code: Code,
    pub evidence: Evidence,
}

impl Refusal {
    /// Returns a copy, or `Memory` if memory runs out.
    pub fn copy(&self, alloc: Global) -> Result<Refusal, Memory>
        ensures { IfOk result (λ copy. refusal_view copy ≡ refusal_view self.now) }
    {
        let evidence = self.evidence.copy(alloc)?;
        Ok(Refusal {
            code: self.code,
            evidence,
        })
    }
}

/// Returns the refusal of what met a later table in every try (MongoDB manual, "Error Codes", `StaleConfig`), with the tries, in order.
pub fn stale_refusal(tries: Vec<ShownTry>) -> Refusal
    ensures { refusal_view result ≡ record { error = stale_config; evidence = history.tries_evidence (shown_tries_view tries.items) } }
{
    Refusal {
        code: Code::StaleConfig,
        evidence: Evidence::Tries(tries),
    }
}

/// Returns the refusal of what took longer than it may (MongoDB manual, "maxTimeMS"): with the moment when the request came, and the moment now.
pub fn expired_refusal(arrived: u64, now: u64) -> Refusal
    ensures { refusal_view result ≡ record { error = max_time_expired; evidence = history.moments_evidence arrived now } }
{
    Refusal {
        code: Code::MaxTimeExpired,
        evidence: Evidence::Moments { arrived, now },
    }
}

/// Returns the refusal of what a node has no memory for (MongoDB manual, "Error Codes", `ExceededMemoryLimit`).
pub fn memory_refusal() -> Refusal
    ensures { refusal_view result ≡ without_evidence exceeded_memory_limit }
{
    Refusal {
        code: Code::ExceededMemoryLimit,
        evidence: Evidence::Nothing,
    }
}

/// Returns the refusal by a node that makes no more steps (MongoDB manual, "Error Codes", `ShutdownInProgress`), with the count of its steps.
pub fn steps_refusal(node: NodeId, steps: u64) -> Refusal
    ensures { refusal_view result ≡ record { error = shutdown_in_progress; evidence = history.steps_evidence node.0 steps } }
{
    Refusal {
        code: Code::ShutdownInProgress,
        evidence: Evidence::Steps { node, steps },
    }
}

/// Returns the reply to a request that is refused (MongoDB manual, "Command Response"), or `Memory` if memory runs out.
pub(crate) fn refusal_document(alloc: Global, refusal: &Refusal) -> Result<Document, Memory>
    ensures { IfOk result (λ d. d ≡ refusal_reply (refusal_view refusal.now)) }
{
    let code = refusal.code;
    let mut answer = Document::new(alloc);
    add_number(&mut answer, alloc, "ok", 0)?;
    add_text(&mut answer, alloc, "errmsg", code.name())?;
    add_number(&mut answer, alloc, "code", code.number())?;
    add_text(&mut answer, alloc, "codeName", code.name())?;
    add_evidence(&mut answer, alloc, &refusal.evidence)?;
    Ok(answer)
}
