//! Open requests.

ghost use Rattle.std.specs.Prelude.{◌≡◌};
ghost use Rattle.command_model.specs.Command.{time_limit};
ghost use Rattle.protocol_model.specs.Heads.{head_request};

use crate::fates::Stay;
use crate::read::OpenRead;
use crate::write::OpenWrite;
use bson_values::Memory;
use cluster_base::{Namespace, NodeId, Time};
use pipeline_eval::Rows;
use protocol_model::{HalfFault, Head, StatementOutcome, Try};
use read_parts::{Part, Target, has_part};
use value_compare::Key;
use write_runs::{Course, Run};

/// What a request has to do before it is answered.
#[derive(Drop)]
pub enum Work {
    /// To write.
    Writing(OpenWrite),
    /// To read.
    Reading(OpenRead),
    /// To create its collection.
    Sharding,
    /// To split a chunk at this key.
    Splitting(Key),
}

/// What an open request waits for.
#[derive(Clone, Copy, Debug, PartialEq, Eq)]
pub enum Wait {
    /// The time that it reads at.
    ForTime,
    /// The catalogue.
    ForCatalogue,
    /// The shards.
    ForShards,
}

/// A request that is not answered yet.
#[derive(Drop)]
pub struct OpenRequest {
    /// How many requests the router had taken in its life, with this one.
    pub count: u64,
    /// The link that it came on.
    pub link: u32,
    /// The number of its reply.
    pub number: i32,
    /// What came.
    pub head: Head,
    /// The last moment that the router was given before it took it, 0 if there was none.
    pub arrived: u64,
    /// How many milliseconds it may take, 0 where there is no limit.
    pub limit: u64,
    /// Of a read, the tries that met a later table.
    pub tries: Vec<Try>,
    /// The collection that it is of.
    pub namespace: Namespace,
    pub wait: Wait,
    /// The shards that returned their time, in the order in which they did.
    pub told: Vec<NodeId>,
    /// The shards that a read was sent to, in order of their numbers.
    pub targets: Vec<Target>,
    /// What they returned, in the order in which they did.
    pub parts: Vec<Part>,
    pub work: Work,
    ghost limited: { time_limit (head_request head) ≡ limit },
}

impl OpenRequest {
    ghost use Rattle.std.specs.Prelude.{◌≡◌, ℕ, [], true, map, OnOk};
    ghost use Rattle.node_model.specs.RouterRequests as requested;
    ghost use Rattle.node_model.specs.RouterNext as nexts;
    ghost use Rattle.protocol_model.specs.Bodies.{rows_view};
    ghost use Rattle.read_parts.specs.Parts.{target_view};
    ghost use Rattle.router_requests.specs.Lists.{has_part_room};
    ghost use Rattle.router_requests.specs.Fates.{answers_in, course_in, runs_in, stay_of, tried_by};
    ghost use Rattle.router_requests.specs.Works.{numbers_of, open_view, told_by, wait_view};
    ghost use Rattle.write_runs.specs.Runs.{answers_view, course_of, runs_view, tries_view};

    // It waits for this now; a write has come this far.
    fn come(&mut self, wait: Wait, course: Course)
        ensures count { self.new.count ≡ self.old.count }
        ensures come { (router life : ℕ) → open_view router life self.new
            ≡ nexts.with_work (open_view router life self.old) (wait_view wait) [] (course_in (open_view router life self.old).work (course_of course)) }
    {
        self.wait = wait;
        self.targets.clear();
        self.parts.clear();
        match &mut self.work {
            Work::Writing(write) => write.come(course),
            Work::Reading(_) => {}
            Work::Sharding => {}
            Work::Splitting(_) => {}
        }
    }

    // It waits for this now; a write has these answers, and these runs of it are under way.
    fn answer(&mut self, wait: Wait, answers: Vec<Option<StatementOutcome>>, runs: Vec<Run>)
        ensures count { self.new.count ≡ self.old.count }
        ensures answers { (router life : ℕ) → open_view router life self.new
            ≡ nexts.with_work (open_view router life self.old) (wait_view wait) []
            (answers_in (open_view router life self.old).work (answers_view answers.items) (runs_view runs.items)) }
    {
        self.wait = wait;
        self.targets.clear();
        self.parts.clear();
        match &mut self.work {
            Work::Writing(write) => {
                write.answers = answers;
                write.runs = runs;
            }
            Work::Reading(_) => {}
            Work::Sharding => {}
            Work::Splitting(_) => {}
        }
    }

    // It waits for this now; of a write these runs are under way.
    fn wait_for_runs(&mut self, wait: Wait, runs: Vec<Run>)
        ensures count { self.new.count ≡ self.old.count }
        ensures waits { (router life : ℕ) → open_view router life self.new
            ≡ nexts.with_work (open_view router life self.old) (wait_view wait) [] (runs_in (open_view router life self.old).work (runs_view runs.items)) }
    {
        self.wait = wait;
        self.targets.clear();
        self.parts.clear();
        match &mut self.work {
            Work::Writing(write) => write.runs = runs,
            Work::Reading(_) => {}
            Work::Sharding => {}
            Work::Splitting(_) => {}
        }
    }

    // These shards have returned their time now.
    pub(crate) fn hear(&mut self, told: Vec<NodeId>)
        ensures count { self.new.count ≡ self.old.count }
        ensures told { (router life : ℕ) → open_view router life self.new ≡ told_by (open_view router life self.old) (numbers_of told.items) }
    {
        self.told = told;
    }

    // A shard returned its part, which is noted if it is the first. Takes no memory.
    pub(crate) fn note(&mut self, shard: NodeId, told: Result<Rows, HalfFault>)
        requires room { has_part_room self.old ≡ true }
        ensures count { self.new.count ≡ self.old.count }
        ensures part { (router life : ℕ) → open_view router life self.new ≡ nexts.with_part (open_view router life self.old) shard.0 (rows_view told) }
    {
        if !has_part(shard, &self.parts) {
            self.parts.push_reserved(Part { shard, rows: told });
        }
    }

    // Makes room for one part more. Returns `Memory` if memory runs out. The request is the same either way.
    pub(crate) fn reserve_part(&mut self) -> Result<(), Memory>
        ensures room { OnOk result (has_part_room self.new ≡ true) }
        ensures count { self.new.count ≡ self.old.count }
        ensures same { (router life : ℕ) → open_view router life self.new ≡ open_view router life self.old }
    {
        self.parts.reserve(1)?;
        Ok(())
    }

    // It waits for this now; it was sent to these shards.
    fn wait_for(&mut self, wait: Wait, targets: Vec<Target>)
        ensures count { self.new.count ≡ self.old.count }
        ensures waits { (router life : ℕ) → open_view router life self.new
            ≡ nexts.with_work (open_view router life self.old) (wait_view wait) (map target_view targets.items) (open_view router life self.old).work }
    {
        self.wait = wait;
        self.targets = targets;
        self.parts.clear();
    }

    // It waits for this now, after these tries; it was sent to these shards.
    fn try_again(&mut self, tries: Vec<Try>, wait: Wait, targets: Vec<Target>)
        ensures count { self.new.count ≡ self.old.count }
        ensures tries { (router life : ℕ) → open_view router life self.new
            ≡ nexts.with_work (tried_by (open_view router life self.old) (tries_view tries.items)) (wait_view wait) (map target_view targets.items)
            (open_view router life self.old).work }
    {
        self.tries = tries;
        self.wait_for(wait, targets);
    }

    // It stays open like this.
    pub(crate) fn stay(&mut self, stay: Stay)
        ensures count { self.new.count ≡ self.old.count }
        ensures stays { (router life : ℕ) → open_view router life self.new ≡ stay_of (open_view router life self.old) stay }
    {
        match stay {
            Stay::Same => {}
            Stay::Reads(wait, targets) => self.wait_for(wait, targets),
            Stay::ReadsAgain(tries, wait, targets) => self.try_again(tries, wait, targets),
            Stay::Writes(wait, runs) => self.wait_for_runs(wait, runs),
            Stay::Answers(wait, answers, runs) => self.answer(wait, answers, runs),
            Stay::Tries(wait, course) => self.come(wait, course),
        }
    }

    // A read is of this time now, unless one is named, and waits for this; it was sent to these shards.
    pub(crate) fn reach(&mut self, time: Time, wait: Wait, targets: Vec<Target>)
        ensures count { self.new.count ≡ self.old.count }
        ensures work { (router life : ℕ) → open_view router life self.new
            ≡ nexts.with_work (open_view router life self.old) (wait_view wait) (map target_view targets.items)
            (requested.reached time.0 (open_view router life self.old).work) }
    {
        self.wait = wait;
        self.targets = targets;
        self.parts.clear();
        match &mut self.work {
            Work::Writing(_) => {}
            Work::Reading(read) => read.reach(time),
            Work::Sharding => {}
            Work::Splitting(_) => {}
        }
    }
}

impl Work {
    ghost use Rattle.std.specs.Prelude.{◌≡◌};
    ghost use Rattle.base_model.specs.Identities as identities;
    ghost use Rattle.router_requests.specs.Fates.{runs_in};
    ghost use Rattle.router_requests.specs.Works.{work_view};
    ghost use Rattle.write_runs.specs.Runs.{runs_view};

    /// Returns the work; of a write these runs are under way.
    pub fn with_runs(self, runs: Vec<Run>) -> Work
        ensures { (id : identities.RequestId) → work_view id result ≡ runs_in (work_view id self) (runs_view runs.items) }
    {
        match self {
            Work::Writing(write) => Work::Writing(write.with_runs(runs)),
            Work::Reading(read) => Work::Reading(read),
            Work::Sharding => Work::Sharding,
            Work::Splitting(middle) => Work::Splitting(middle),
        }
    }
}
