//! What is under way in each world of a run, and that requests are answered.

ghost use Rattle.std.specs.Prelude.{ℕ, List, length, map, ◌<◌, ◌≤◌, ◌++◌, ◌≡◌};
ghost use Rattle.std.specs.List.{AllByRecursion};
ghost use Rattle.reply_model.specs.Exchanges.{Asked};
ghost use Rattle.node_model.specs.Letters.{Letter};
ghost use Rattle.node_model.specs.World.{Event, Run, World, account_of};
ghost use Rattle.node_model.specs.Schedule.{Pipes, Round};
ghost use Rattle.node_replay.specs.Restarts.{EventOrStop, RunWithStops};
ghost use Rattle.node_progress.specs.Arrivals.{arrival_of, arrivals};
ghost use Rattle.node_progress.specs.Completion.{AreAnswered, AreAnsweredSince, IsAnswered, IsOfRouter, IsServed, asked_since};
ghost use Rattle.node_progress.specs.Firsts.{IsAtRest, IsFirst};
ghost use Rattle.node_progress.specs.UnderWay.{IsDelivered, IsLeft, IsNotStale, IsUnderWay};

/// In a world that a call begins in nothing is under way.
#[tactic(auto, using(crate::proofs::Firsts::first_rests))]
pub fn calls_begin_at_rest()
    ensures { (first : World) → IsFirst first → IsAtRest first }
{}

/// Each request that comes is taken, once and in order, where no node misses a step, as one that is out of memory does.
#[tactic(auto, using(crate::proofs::Progress::each_request_is_taken))]
pub fn each_request_is_taken()
    ensures { (first : World) (events : List Event) (w : World) → IsFirst first → Run first events w → w.missed ≡ first.missed → map arrival_of w.asked ≡ map arrival_of first.asked ++ arrivals events }
{}

/// Each request that was taken since a call began is of a life of its router that goes on.
#[tactic(auto, using(crate::proofs::Progress::requests_are_of_lives))]
pub fn requests_are_of_lives()
    ensures { (first : World) (events : List Event) (w : World) → IsFirst first → Run first events w → AllByRecursion (λ (a : Asked). IsOfRouter w.nodes a.id) (asked_since first w) }
{}

/// In each world of each run in which no node misses a step, for any number of open requests, and however messages were delivered: all that an open request waits for is under
/// way, in a message that is not delivered yet or parked at a shard, with the table that it wants there under way.
#[tactic(auto, using(crate::proofs::Progress::run_under_way))]
pub fn requests_stay_under_way()
    ensures { (first : World) (events : List Event) (w : World) → IsFirst first → Run first events w → w.missed ≡ first.missed → IsUnderWay first (IsLeft events) w }
{}

/// So where no node misses a step, and each message was delivered, in any order, and maybe more than once, every request that was taken is answered, every write is served,
/// no request is open and no request to a shard is parked.
#[tactic(auto, using(crate::proofs::Answered::delivered_runs_are_answered))]
pub fn delivered_runs_are_answered()
    ensures { (first : World) (events : List Event) (w : World) → IsFirst first → Run first events w → w.missed ≡ first.missed → ((n : ℕ) → n < length w.sent → IsDelivered events n) → AreAnswered first w }
{}

/// Where nodes stopped and were started again, and none missed a step: of the requests that were taken since any world of the run, where no node stopped after it and each message
/// that was sent since was delivered, every one is answered and every write is served. What a node had for an earlier one, and did not store, may be lost.
#[tactic(auto, using(crate::proofs::AnsweredSince::delivered_since_are_answered))]
pub fn delivered_since_are_answered()
    ensures { (first : World) (early : List EventOrStop) (v : World) (late : List Event) (w : World) → IsFirst first → RunWithStops first early v → Run v late w
        → w.missed ≡ first.missed → ((n : ℕ) → length v.sent ≤ n → n < length w.sent → IsDelivered late n) → AreAnsweredSince v w }
{}

/// No request is refused as one that was sent with an older table: currently no chunk moves.
#[tactic(auto, using(crate::proofs::Answered::none_is_sent_back))]
pub fn no_request_is_sent_back()
    ensures { (first : World) (events : List Event) (w : World) → IsFirst first → Run first events w → AllByRecursion (λ (m : Letter). IsNotStale m.body) w.sent }
{}

/// Each message goes to one of the nodes.
#[tactic(auto, using(crate::proofs::Answered::messages_go_to_nodes))]
pub fn messages_go_to_nodes()
    ensures { (first : World) (events : List Event) (w : World) → IsFirst first → Run first events w → AllByRecursion (λ (m : Letter). m.receiver < length w.nodes) w.sent }
{}

/// Where nodes are opened and requests arrive by the schedule of `pipe`, at any of the routers, and none misses a step: after each round every request that was
/// taken is answered, every write is served, also one that wants no reply, no request is open and no request to a shard is parked.
#[tactic(auto, using(crate::proofs::Rounds::piped_requests_are_answered))]
pub fn piped_requests_are_answered()
    ensures { (first : World) (rounds : List Round) (events : List Event) (w : World) (next : ℕ) → IsFirst first → Pipes first rounds events w next → w.missed ≡ first.missed → AreAnswered first w }
{}

/// Whatever happens after a round until which no step was missed, as in one that is cut short, the requests of the rounds before are answered and their writes are served.
#[tactic(auto, using(crate::proofs::Rounds::earlier_requests_stay_answered))]
pub fn earlier_requests_stay_answered()
    ensures answered { (first : World) (rounds : List Round) (events more : List Event) (u w : World) (next : ℕ) → IsFirst first → Pipes first rounds events u next
        → u.missed ≡ first.missed → Run u more w → AllByRecursion (IsAnswered w.answered) (asked_since first u) }
    ensures served { (first : World) (rounds : List Round) (events more : List Event) (u w : World) (next : ℕ) → IsFirst first → Pipes first rounds events u next
        → u.missed ≡ first.missed → Run u more w → AllByRecursion (IsServed (account_of w)) (asked_since first u) }
{}

/// The events of the schedule are a run, so what is true of each run is true after each round.
#[tactic(auto, using(node_model::proofs::Schedules::pipes_run))]
pub fn piped_rounds_are_a_run()
    ensures { (first : World) (rounds : List Round) (events : List Event) (w : World) (next : ℕ) → Pipes first rounds events w next → Run first events w }
{}
