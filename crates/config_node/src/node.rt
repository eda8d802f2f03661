//! The node, and its steps.

ghost use Rattle.std.specs.Prelude.{◌≡◌, ◌⊎◌, ◌<◌, ◌≤◌, ◌∷◌, [], IfOk, IfSome, IsSome, None, Some, false, map, max, true};
ghost use Rattle.std.specs.Arc.{arc_value};
ghost use Rattle.std.specs.Option.{option_map};
ghost use Rattle.chunk_catalogue.specs.Catalogues.{IsNext, changes_of};
ghost use Rattle.chunk_catalogue.specs.Views.{change_view};
ghost use Rattle.chunk_model.specs.Changes.{known_table, time_of};
ghost use Rattle.chunk_model.specs.Requests.{changed, create_answer};
ghost use Rattle.node_model.specs.Lacks.{last_time, time_in};
ghost use Rattle.node_model.specs.States.{catalogue_state, new_catalogue};
ghost use Rattle.node_model.specs.Letters.{Letter, letter_input};
ghost use Rattle.node_traits.specs.Faults.{cause_of};
ghost use Rattle.protocol_model.specs.Bodies.{split_ask_view, table_ask_view};
ghost use Rattle.protocol_model.specs.Inputs.{input_of};
ghost use Rattle.protocol_model.specs.Requests.{request_of};
ghost use Rattle.protocol_model.specs.Messages.{letter_of};
ghost use Rattle.protocol_model.specs.Missed.{TellsMissed};
ghost use Rattle.config_node.specs.Plans.{IsWritableChange, at_then};
ghost use Rattle.config_node.specs.StepPlans.{IsPlanned, IsReady};
ghost use Rattle.config_node.specs.State.{state_of};
ghost use Rattle.config_node.specs.Told.{answers};
ghost use Rattle.config_node.specs.declared.plan.Answer.TheVariants.{Split};

use crate::asks::{Ask, answers, ask_in, requested};
use crate::keys::is_writable;
use crate::plan::{Answer, StepPlan, none_records, without};
use crate::state::ConfigNode;
use bson_values::Memory;
use chunk_catalogue::{CatFault, Catalogue, Change};
use chunk_table::Table;
use cluster_base::{Namespace, NodeId, Time, moment_time};
use node_traits::{Node, NotTaken, Outputs, ReplyList, StepCount, StepFault, append_records};
use opmsg_frames::Request;
use outside::log::Log;
use protocol_model::{Input, Message, SplitAsk, TableAsk, missed};
use std::alloc::Global;
use std::marker::Sync;
use std::sync::Arc;
use std::thread::Threads;

impl ConfigNode {
    ghost use Rattle.config_node.specs.State.{state_of};

    /// Returns the catalogue with this number, without records.
    pub fn open(alloc: Global, me: NodeId) -> ConfigNode
        ensures state { state_of result ≡ catalogue_state (new_catalogue me.0) }
        ensures steps { result.steps ≡ 0 }
    {
        ConfigNode {
            alloc,
            me,
            steps: StepCount::new(),
            time: Time(0),
            catalogue: Catalogue::new(alloc),
        }
    }

    /// Returns how many steps it has taken.
    pub fn counted(&self) -> &StepCount
        ensures { result.now ≡ self.now.steps }
    {
        &self.steps
    }

    /// Goes on with the count of a node that stopped.
    pub fn count_from(&mut self, before: &StepCount)
        ensures state { state_of self.new ≡ state_of self.old }
        ensures steps { self.new.steps ≡ before.now }
    {
        self.steps.keep(before);
    }

    // Returns the plan for an input. Reserves room for a new table; nothing else changes.
    fn plan(&mut self, input: &Input) -> Result<StepPlan, Memory>
        requires early { self.old.time.0 < last_time }
        requires brought { time_in (input_of input.now) < last_time }
        ensures planned { IfOk result (λ p. IsPlanned self.old (input_of input.now) p) }
        ensures ready { IfOk result (λ p. IsReady self.new p) }
        ensures same { state_of self.new ≡ state_of self.old }
        ensures steps { self.new.steps ≡ self.old.steps }
    {
        match input {
            Input::Deliver(message) => self.plan_message(message),
            Input::Moment(moment) => Ok(StepPlan::of_time(
                self.alloc,
                self.time.max(moment_time(*moment)),
            )),
            Input::Client { .. } => Ok(StepPlan::of_time(self.alloc, self.time)),
            Input::Opened => Ok(StepPlan::of_time(self.alloc, self.time)),
        }
    }

    // Returns the plan for a message.
    fn plan_message(&mut self, message: &Message) -> Result<StepPlan, Memory>
        requires early { self.old.time.0 < last_time }
        requires brought { message.now.time.0 < last_time }
        ensures planned { IfOk result (λ p. IsPlanned self.old (letter_input (letter_of message.now)) p) }
        ensures ready { IfOk result (λ p. IsReady self.new p) }
        ensures same { state_of self.new ≡ state_of self.old }
        ensures steps { self.new.steps ≡ self.old.steps }
    {
        if message.receiver != self.me {
            return Ok(StepPlan::of_time(self.alloc, self.time));
        }
        let heard = self.time.max(message.time);
        match ask_in(&message.body) {
            Some(Ask::Table(ask)) => self.plan_table(heard, ask),
            Some(Ask::Split(ask)) => self.plan_split(heard, ask),
            None => Ok(StepPlan::of_time(self.alloc, self.time)),
        }
    }

    // Returns the plan for a request of a table, at the time that the message carries: the collection is created where that is requested and there is none of
    // its name; else the present table, or none, is returned, and that there is none at a time is stored.
    fn plan_table(&mut self, heard: Time, ask: &TableAsk) -> Result<StepPlan, Memory>
        requires early { heard.0 < last_time }
        requires late { self.old.time.0 ≤ heard.0 }
        ensures planned { (m : Letter) → heard.0 ≡ max self.old.time.0 m.time → m.body ≡ table_ask_view ask.now → m.receiver ≡ self.old.me.0 →
            IfOk result (λ p. IsPlanned self.old (letter_input m) p) }
        ensures ready { IfOk result (λ p. IsReady self.new p) }
        ensures same { state_of self.new ≡ state_of self.old }
        ensures steps { self.new.steps ≡ self.old.steps }
    {
        let next = Time(heard.0 + 1);
        match self.creation(ask, next)? {
            Some(change) => match Arc::try_clone(&change.table) {
                Ok(table) => {
                    StepPlan::make(self.alloc, change, next, Answer::Table(Some(table)))
                }
                Err(_) => Err(without(change, Memory)),
            },
            None => {
                let table = self.known(&ask.namespace)?;
                let records = none_records(self.alloc, ask.at, &table)?;
                Ok(StepPlan::tell(heard, Answer::Table(table), records))
            }
        }
    }

    // Returns the change that creates the collection of a request at a time, and makes room for its table. `None` where that is not requested, or where the
    // collection exists. Returns `Memory` if memory runs out.
    fn creation(&mut self, ask: &TableAsk, at: Time) -> Result<Option<Change>, Memory>
        requires late { self.old.time.0 < at.0 }
        ensures requested { IfOk result (λ change. IfSome change (λ _. ask.now.create ≡ true)) }
        ensures answer { IfOk result (λ change. IfSome change (λ x.
            create_answer ask.now.namespace at.0 (changes_of self.old.catalogue) ≡ changed (change_view x.fields))) }
        ensures none { IfOk result (λ change. change ≡ None →
            (ask.now.create ≡ false) ⊎ IsSome (known_table ask.now.namespace (changes_of self.old.catalogue))) }
        ensures writable { IfOk result (λ change. IfSome change (λ x. IsWritableChange (change_view x.fields))) }
        ensures table { IfOk result (λ change. IfSome change (λ x.
            known_table ask.now.namespace (change_view x.fields ∷ changes_of self.old.catalogue) ≡ Some (arc_value x.table))) }
        ensures next { IfOk result (λ change. IfSome change (λ x. IsNext self.new.catalogue x)) }
        ensures time { IfOk result (λ change. IfSome change (λ x. time_of (change_view x.fields) ≡ at.0)) }
        ensures same { state_of self.new ≡ state_of self.old }
        ensures steps { self.new.steps ≡ self.old.steps }
    {
        if ask.create {
            self.catalogue.create(&ask.namespace, at)
        } else {
            Ok(None)
        }
    }

    // Returns the plan for a request for a split, at the time that the message carries: a chunk is split, or one begins there, or there is no such collection.
    fn plan_split(&self, heard: Time, ask: &SplitAsk) -> Result<StepPlan, Memory>
        requires early { heard.0 < last_time }
        requires late { self.now.time.0 ≤ heard.0 }
        ensures planned { (m : Letter) → heard.0 ≡ max self.now.time.0 m.time → m.body ≡ split_ask_view ask.now → m.receiver ≡ self.now.me.0 →
            IfOk result (λ p. IsPlanned self.now (letter_input m) p) }
        ensures ready { IfOk result (λ p. IsReady self.now p) }
    {
        let writable = is_writable(self.alloc, &ask.middle)?;
        if !writable {
            // No message of a router has such a key.
            return Err(Memory);
        }
        let next = Time(heard.0 + 1);
        match self.catalogue.split(&ask.namespace, &ask.middle, next) {
            Ok(Some(change)) => {
                StepPlan::make(self.alloc, change, next, Answer::Split { found: true })
            }
            Ok(None) => Ok(self.split_told(heard, true)),
            Err(CatFault::NoCollection) => Ok(self.split_told(heard, false)),
            Err(_) => Err(Memory),
        }
    }

    // Returns the plan to answer a request for a split at a time, without a change: whether there is such a collection.
    fn split_told(&self, time: Time, found: bool) -> StepPlan
        ensures time { result.time ≡ time }
        ensures change { result.change ≡ None }
        ensures answer { result.answer ≡ Split found }
        ensures records { result.records.items ≡ [] }
    {
        StepPlan::tell(time, Answer::Split { found }, Vec::new(self.alloc))
    }

    // Returns the table of a collection, shared, if there is one, or `Memory` if memory runs out.
    fn known(&self, namespace: &Namespace) -> Result<Option<Arc<Table, Global>>, Memory>
        ensures { IfOk result (λ t. option_map (λ x. arc_value x) t ≡ known_table namespace.now (changes_of self.now.catalogue)) }
    {
        match self.catalogue.shared_table(namespace) {
            Some(table) => Ok(Some(Arc::try_clone(table)?)),
            None => Ok(None),
        }
    }

    // Changes the catalogue as planned, and answers the input. Takes no memory.
    fn take(&mut self, plan: StepPlan, input: Input) -> Outputs<Message>
        requires ready { IsReady self.old plan }
        ensures state { state_of self.new ≡
            at_then self.old.me.0 plan.time.0 (option_map (λ c. change_view c.fields) plan.change) (changes_of self.old.catalogue) }
        ensures mail { map letter_of result.mail ≡ answers self.old.me.0 plan.time.0 plan.answer (input_of input) }
        ensures replies { result.replies ≡ [] }
        ensures steps { self.new.steps ≡ self.old.steps }
    {
        let StepPlan {
            time,
            change,
            answer,
            records: _,
        } = plan;
        let mail = answers(self.alloc, self.me, time, answer, input);
        self.pass(time, change);
        Outputs {
            mail,
            replies: ReplyList::new(self.alloc),
        }
    }

    // Returns what is told of a step that was not taken on an input, after so many steps, for this cause.
    fn missed(&self, steps: u64, input: Input, cause: NotTaken) -> StepFault<Message>
        ensures cause { cause_of result ≡ cause }
        ensures told { TellsMissed (state_of self.now) (input_of input) steps result }
    {
        let asked = requested(self.me, input);
        missed(self.alloc, self.me, self.time, steps, asked, cause)
    }

    // Goes on to a time, with a change, if there is one. Takes no memory.
    fn pass(&mut self, time: Time, change: Option<Change>)
        requires later { self.old.time.0 ≤ time.0 }
        requires next { IfSome change (λ c. IsNext self.old.catalogue c) }
        requires past { IfSome change (λ c. time_of (change_view c.fields) ≤ time.0) }
        ensures state { state_of self.new ≡ at_then self.old.me.0 time.0 (option_map (λ c. change_view c.fields) change) (changes_of self.old.catalogue) }
        ensures steps { self.new.steps ≡ self.old.steps }
    {
        self.time = time;
        match change {
            Some(change) => self.catalogue.admit(change),
            None => {}
        }
    }
}

impl Node for ConfigNode {
    type Input = Input;

    type Mail = Message;

    type Request = Request;

    ghost state = { state_of };

    ghost steps = { λ node. node.steps };

    ghost meaning = { input_of };

    ghost asks = { request_of };

    fn me(&self) -> NodeId {
        self.me
    }

    fn client(link: u32, number: i32, request: Request) -> Input {
        Input::Client {
            link,
            number,
            request,
        }
    }

    fn moment(ms: u64) -> Input {
        Input::Moment(ms)
    }

    fn opened() -> Input {
        Input::Opened
    }

    fn prepare<R: Threads + Sync>(_rt: &R, _alloc: Global, mail: Message) -> Input {
        Input::Deliver(mail)
    }

    fn keep_count(&mut self, before: &ConfigNode) {
        self.count_from(before.counted());
    }

    fn step<L: Log>(
        &mut self,
        log: &mut L,
        input: Input,
    ) -> Result<Outputs<Message>, StepFault<Message>> {
        let steps = self.steps.get();
        match self.steps.count(self.time, input.time()) {
            Ok(()) => match self.plan(&input) {
                Ok(plan) => match append_records(log, &plan.records) {
                    Ok(()) => Ok(self.take(plan, input)),
                    Err(cause) => Err(without(plan, self.missed(steps, input, cause))),
                },
                Err(_) => Err(self.missed(steps, input, NotTaken::Memory)),
            },
            Err(cause) => Err(self.missed(steps, input, cause)),
        }
    }
}
