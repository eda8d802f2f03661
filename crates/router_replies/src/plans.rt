//! The answer to a request, or the work that it needs.

ghost use Rattle.std.specs.Prelude.{◌≡◌, ◌||◌, IfOk, map};
ghost use Rattle.std.specs.Option.{unwrap_or};
ghost use Rattle.command_replies.specs.Kinds.{given_view, kind_view};
ghost use Rattle.command_model.specs.CommandSizes.{IsSmallWrite};
ghost use Rattle.command_words.specs.Commands.{split_view, write_view};
ghost use Rattle.base_model.specs.Identities as identities;
ghost use Rattle.reply_model.specs.Right.{usual_size};
ghost use Rattle.node_model.specs.RouterRequests as requested;
ghost use Rattle.node_model.specs.States as states;
ghost use Rattle.router_requests.specs.Works.{stages_of, telling_view};
ghost use Rattle.statement_views.specs.Views.{operation_view};
ghost use Rattle.router_replies.specs.Plans.{plan_view};

use crate::statements::statements_of;
use bson_values::Memory;
use cluster_base::{Namespace, Time};
use command_replies::Answer;
use command_words::{Batches, GetMore, KillCursors, SplitCommand, WriteCommand};
use router_requests::{OpenRead, OpenWrite, Parts, Telling, Work};
use router_writes::none_yet;
use std::alloc::Global;
use write_runs::no_tries;

/// The greatest size of a first batch where no size is given (MongoDB manual, "Cursor Batches").
const USUAL_SIZE: u64 = 101;

/// The answer to a request, or the work that it needs.
#[derive(Drop)]
pub enum RequestPlan {
    AtOnce(Answer),
    Needs { namespace: Namespace, work: Work },
    /// It needs the next batch of a cursor.
    NeedsBatch(GetMore),
    /// It needs cursors to be closed.
    NeedsEnd(KillCursors),
}

/// Returns the plan of a write, or `Memory` if memory runs out.
pub fn plan_write(alloc: Global, write: WriteCommand) -> Result<RequestPlan, Memory>
    requires { IsSmallWrite (write_view write) }
    ensures { (id : identities.RequestId) → IfOk result (λ plan. plan_view id plan
        ≡ requested.needs write.namespace (requested.begun_write (kind_view write.kind) write.ordered
        (requested.statements_from (given_view write.number) id 0 (map operation_view write.operations.items)))) }
{
    let WriteCommand {
        kind,
        namespace,
        operations,
        ordered,
        number,
    } = write;
    let statements = statements_of(alloc, operations)?;
    let answers = none_yet(alloc, &statements)?;
    let tries = no_tries(alloc, &statements)?;
    let work = Work::Writing(OpenWrite {
        kind,
        number,
        ordered,
        statements,
        answers,
        tries,
        runs: Vec::new(alloc),
    });
    Ok(RequestPlan::Needs { namespace, work })
}

/// Returns the plan of a read, of a time that was named or not.
pub fn needs_read(
    namespace: Namespace,
    named: bool,
    at: Time,
    parts: Parts,
    telling: Telling,
) -> RequestPlan
    ensures { (id : identities.RequestId) → plan_view id result ≡ requested.needs namespace (states.reading named at.0 (stages_of parts) (telling_view telling)) }
{
    let read = OpenRead {
        named,
        at,
        parts,
        telling,
    };
    RequestPlan::Needs {
        namespace,
        work: Work::Reading(read),
    }
}

/// Returns the plan to create a collection.
pub fn needs_collection(namespace: Namespace) -> RequestPlan
    ensures { (id : identities.RequestId) → plan_view id result ≡ requested.needs namespace states.sharding }
{
    RequestPlan::Needs {
        namespace,
        work: Work::Sharding,
    }
}

/// Returns the plan of a split.
pub fn plan_split(split: SplitCommand) -> RequestPlan
    ensures { (id : identities.RequestId) → plan_view id result
        ≡ requested.needs (split_view split).namespace (states.splitting (split_view split).middle) }
{
    let SplitCommand { namespace, middle } = split;
    RequestPlan::Needs {
        namespace,
        work: Work::Splitting(middle),
    }
}

/// Returns how a find is answered: in batches, and only with the first where no reply is requested.
pub fn telling_of(batches: &Batches, silent: bool) -> Telling
    ensures { telling_view result ≡ states.in_batches (unwrap_or batches.now.size usual_size) (batches.now.single || silent) }
{
    Telling::Batches {
        size: batches.size.unwrap_or(USUAL_SIZE),
        single: batches.single || silent,
    }
}
