//! What becomes of open writes.

use crate::asker::Asker;
use crate::mail::add_letters;
use crate::work::Wait;
use crate::write::OpenWrite;
use bson_values::Memory;
use chunk_table::Table;
use cluster_base::{Namespace, Time};
use command_replies::Answer;
use protocol_model::{Body, Message, StatementOutcome, Try, WriteAsk};
use router_writes::{answer_of, is_answered};
use std::alloc::Global;
use write_runs::{Run, add_runs, are_unsent, in_run, runs_by, turn_of};

/// What an open write waits for, what of it was sent to shards and is not answered, and the messages.
#[derive(Drop)]
pub struct WriteSends {
    pub wait: Wait,
    pub runs: Vec<Run>,
    pub mail: Vec<Message>,
}

/// What becomes of an open write.
#[derive(Drop)]
pub enum WriteNext {
    /// It goes on.
    GoesOn(WriteSends),
    /// It is answered.
    IsWritten(Answer),
}

impl Asker {
    ghost use Rattle.std.specs.Prelude.{◌≡◌, ◌++◌, ◌∷◌, [], IfOk, List, OnOk, map, true, false, if◌then◌else◌};
    ghost use Rattle.std.specs.Option.{option_map};
    ghost use Rattle.base_model.specs.Identities as identities;
    ghost use Rattle.command_replies.specs.Kinds.{kind_view};
    ghost use Rattle.node_model.specs.Letters.{no_time, table_ask};
    ghost use Rattle.node_model.specs.RouterRequests as requested;
    ghost use Rattle.node_model.specs.RouterNext as nexts;
    ghost use Rattle.node_model.specs.States as states;
    ghost use Rattle.protocol_model.specs.Messages.{letter_of};
    ghost use Rattle.reply_model.specs.Outcomes as outcomes;
    ghost use Rattle.router_requests.specs.Askers.{asker_view};
    ghost use Rattle.router_requests.specs.Nexts.{goes_by, write_by, write_next};
    ghost use Rattle.router_requests.specs.Works.{statements_of, work_of};
    ghost use Rattle.router_requests.specs.declared.writes.WriteNext.TheVariants.{GoesOn};
    ghost use Rattle.write_runs.specs.Runs.{answers_view, course_view, run_view, runs_view};

    // Returns what a run of a write requests of its shard, or `Memory` if memory runs out.
    fn asks_run(
        self,
        alloc: Global,
        time: Time,
        count: u64,
        namespace: &Namespace,
        write: &OpenWrite,
        tries: &[Vec<Try>],
        run: &Run,
    ) -> Result<Message, Memory>
        ensures { IfOk result (λ m. letter_of m ∷ []
            ≡ requested.asks_to_write (asker_view self) time.0 (requested.id_of (asker_view self) count) namespace.now
            write.now.ordered (statements_of (requested.id_of (asker_view self) count) write.now) (course_view [] tries.now []) (run_view run.now ∷ [])) }
    {
        let statements = in_run(alloc, run, &write.statements)?;
        let ask = WriteAsk {
            id: self.id(count),
            turn: turn_of(tries, run)?,
            ordered: write.ordered,
            namespace: namespace.copy()?,
            number: write.number,
            statements,
            sent: run.sent,
        };
        Ok(self.says(run.shard, time, Body::WriteAsk(ask)))
    }

    // Appends what these runs of a write request of their shards. Returns `Memory` if memory runs out.
    pub(crate) fn add_runs_asked(
        self,
        alloc: Global,
        asks: &mut Vec<Message>,
        time: Time,
        count: u64,
        namespace: &Namespace,
        write: &OpenWrite,
        tries: &[Vec<Try>],
        runs: &[Run],
    ) -> Result<(), Memory>
        ensures { OnOk result (map (λ m. letter_of m) asks.new.items ≡ map (λ m. letter_of m) asks.old.items
            ++ requested.asks_to_write (asker_view self) time.0 (requested.id_of (asker_view self) count) namespace.now
            write.now.ordered (statements_of (requested.id_of (asker_view self) count) write.now) (course_view [] tries.now []) (runs_view runs.now)) }
    {
        for run in runs {
            asks.push(self.asks_run(alloc, time, count, namespace, write, tries, run)?)?;
        }
        Ok(())
    }

    /// Returns what these runs of a write request of their shards. Returns `Memory` if memory runs out.
    pub fn asks_to_write(
        self,
        alloc: Global,
        time: Time,
        count: u64,
        namespace: &Namespace,
        write: &OpenWrite,
        tries: &[Vec<Try>],
        runs: &[Run],
    ) -> Result<Vec<Message>, Memory>
        ensures { IfOk result (λ asks. map (λ m. letter_of m) asks.items
            ≡ requested.asks_to_write (asker_view self) time.0 (requested.id_of (asker_view self) count) namespace.now
            write.now.ordered (statements_of (requested.id_of (asker_view self) count) write.now) (course_view [] tries.now []) (runs_view runs.now)) }
    {
        let mut asks = Vec::new(alloc);
        self.add_runs_asked(alloc, &mut asks, time, count, namespace, write, tries, runs)?;
        Ok(asks)
    }

    // Returns the runs that the table of its collection sends of a write that has come this far, if a table is known. Returns `Memory` if memory runs out.
    fn runs_sent(
        self,
        alloc: Global,
        table: Option<&Table>,
        write: &OpenWrite,
        answers: &[Option<StatementOutcome>],
        tries: &[Vec<Try>],
        runs: &[Run],
    ) -> Result<Vec<Run>, Memory>
        ensures { (id : identities.RequestId) → IfOk result (λ more. runs_view more.items
            ≡ requested.runs_by write.now.ordered (option_map (λ t. t.now) table.entry) (statements_of id write.now)
            (course_view answers.now tries.now runs.now)) }
    {
        match table {
            None => Ok(Vec::new(alloc)),
            Some(table) => runs_by(
                alloc,
                write.ordered,
                table,
                &write.statements,
                answers,
                tries,
                runs,
            ),
        }
    }

    // Returns what a write requests of the catalogue if `asks`: its table. Returns `Memory` if memory runs out.
    fn asks_table(
        self,
        alloc: Global,
        time: Time,
        namespace: &Namespace,
        asks: bool,
    ) -> Result<Vec<Message>, Memory>
        ensures { IfOk result (λ ms. map (λ m. letter_of m) ms.items
            ≡ (if asks then requested.says (asker_view self) 0 time.0 (table_ask namespace.now true no_time) ∷ [] else [])) }
    {
        let mut mail = Vec::new(alloc);
        if asks {
            mail.push(self.asks_to_begin(time, namespace)?)?;
        }
        Ok(mail)
    }

    // Returns how a write goes on that is not answered, of which these runs are under way, with these messages: where statements are left to be sent, it waits
    // for the catalogue, which is asked if `asks`. Returns `Memory` if memory runs out.
    fn goes_with(
        self,
        alloc: Global,
        time: Time,
        namespace: &Namespace,
        asks: bool,
        write: &OpenWrite,
        answers: &[Option<StatementOutcome>],
        runs: Vec<Run>,
        sent: Vec<Message>,
    ) -> Result<WriteSends, Memory>
        ensures { (q : states.Open) (id : identities.RequestId) (tries : List (List outcomes.Try)) → q.namespace ≡ namespace.now →
            IfOk result (λ s. goes_by (asker_view self) time.0 asks q (kind_view write.now.kind) write.now.ordered (statements_of id write.now)
            (record { answers = answers_view answers.now; tries = tries; runs = runs_view runs.items }) (map letter_of sent.items)
            ≡ write_next (asker_view self) time.0 q
            (work_of id write.now (record { answers = answers_view answers.now; tries = tries; runs = runs_view runs.items })) (GoesOn s)) }
    {
        let some = are_unsent(alloc, write.ordered, &write.statements, answers, &runs)?;
        if !some {
            return Ok(WriteSends {
                wait: Wait::ForShards,
                runs,
                mail: sent,
            });
        }
        let mut mail = self.asks_table(alloc, time, namespace, asks)?;
        add_letters(&mut mail, sent)?;
        Ok(WriteSends {
            wait: Wait::ForCatalogue,
            runs,
            mail,
        })
    }

    // Returns how a write goes on that is not answered, by the table of its collection, if one is known. Returns `Memory` if memory runs out.
    fn goes(
        self,
        alloc: Global,
        time: Time,
        count: u64,
        namespace: &Namespace,
        table: Option<&Table>,
        asks: bool,
        rest: &[Run],
        write: &OpenWrite,
        answers: &[Option<StatementOutcome>],
        tries: &[Vec<Try>],
        runs: Vec<Run>,
    ) -> Result<WriteSends, Memory>
        ensures { (q : states.Open) → q.count ≡ count → q.namespace ≡ namespace.now → nexts.is_answered write.now.ordered (answers_view answers.now) ≡ false →
            IfOk result (λ s. write_by (asker_view self) time.0 (option_map (λ t. t.now) table.entry) asks (runs_view rest.now) q (kind_view write.now.kind)
            write.now.ordered (statements_of (requested.id_of (asker_view self) count) write.now) (course_view answers.now tries.now runs.items)
            ≡ write_next (asker_view self) time.0 q
            (work_of (requested.id_of (asker_view self) count) write.now (course_view answers.now tries.now runs.items)) (GoesOn s)) }
    {
        let more = self.runs_sent(alloc, table, write, answers, tries, &runs)?;
        let mut sent = self.asks_to_write(alloc, time, count, namespace, write, tries, rest)?;
        self.add_runs_asked(
            alloc, &mut sent, time, count, namespace, write, tries, &more,
        )?;
        let mut runs = runs;
        add_runs(&mut runs, more)?;
        let sends = self.goes_with(alloc, time, namespace, asks, write, answers, runs, sent)?;
        Ok(sends)
    }

    /// Returns what becomes of an open write that has these answers and these tries, of which these runs are under way, by the table of its collection, if one
    /// is known: it is answered; or what is not sent yet is sent, and the rest of these runs again; where statements are left, the catalogue is asked if
    /// `asks`. Returns `Memory` if memory runs out, and where the answer is longer than allowed.
    pub fn write_on(
        self,
        alloc: Global,
        time: Time,
        count: u64,
        namespace: &Namespace,
        table: Option<&Table>,
        asks: bool,
        rest: &[Run],
        write: &OpenWrite,
        answers: &[Option<StatementOutcome>],
        tries: &[Vec<Try>],
        runs: Vec<Run>,
    ) -> Result<WriteNext, Memory>
        ensures { (q : states.Open) → q.count ≡ count → q.namespace ≡ namespace.now →
            IfOk result (λ next. write_by (asker_view self) time.0 (option_map (λ t. t.now) table.entry) asks (runs_view rest.now) q
            (kind_view write.now.kind) write.now.ordered (statements_of (requested.id_of (asker_view self) count) write.now)
            (course_view answers.now tries.now runs.items)
            ≡ write_next (asker_view self) time.0 q
            (work_of (requested.id_of (asker_view self) count) write.now (course_view answers.now tries.now runs.items)) next) }
    {
        if is_answered(write.ordered, answers) {
            return Ok(WriteNext::IsWritten(answer_of(alloc, write.kind, time, answers)?));
        }
        let sends = self.goes(
            alloc, time, count, namespace, table, asks, rest, write, answers, tries, runs,
        )?;
        Ok(WriteNext::GoesOn(sends))
    }
}
