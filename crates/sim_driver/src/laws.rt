//! What is under way after the lines of a script, and that `settle` leaves no request open.

ghost use Rattle.std.specs.Prelude.{◌≡◌, ℕ, List, None, Option};
ghost use Rattle.node_model.specs.World.{World};
ghost use Rattle.node_replay.specs.Restarts.{EventOrStop};
ghost use Rattle.node_progress.specs.Completion.{AreAnswered};
ghost use Rattle.node_progress.specs.Firsts.{IsFirst};
ghost use Rattle.node_progress.specs.UnderWay.{IsUnderWay};
ghost use Rattle.script_lines.specs.Lines.{settle_line};
ghost use Rattle.sim_driver.specs.Plays.{IsPlayed};
ghost use Rattle.sim_driver.specs.Scripts.{ScriptView};
ghost use Rattle.sim_driver.specs.Simulations.{AreAnsweredAfterRestarts, EndInSettle, HaveNoRestart, Plays};
ghost use Rattle.sim_driver.specs.Undelivered.{IsUndelivered};

/// After the lines of a script in which no node stops and none misses a step, whatever they are: all that an open request waits for is under way, in a message
/// that is not delivered yet or parked at a shard, with the table that it wants there under way.
#[tactic(auto, using(crate::proofs::Settled::scripts_are_under_way))]
pub fn scripts_are_under_way()
    ensures { (first_router : ℕ) (first : World) (lines : List (List ℕ)) (events : List EventOrStop) (w : World) (s : ScriptView) (out : List ℕ) →
        IsFirst first → HaveNoRestart lines → Plays first_router first lines events w s out → w.missed ≡ first.missed → IsUnderWay first
        (IsUndelivered s.delivered) w }
{}

/// After a line `settle` without `except` every request that was taken is answered, every write is served, no request is open and none is parked
/// at a shard: no message is lost, whatever the lines before delivered, held or repeated, if no node stopped in them, or missed a step.
#[tactic(auto, using(crate::proofs::Settled::settled_scripts_are_answered))]
pub fn settled_scripts_are_answered()
    ensures { (first_router : ℕ) (first : World) (lines : List (List ℕ)) (before events : List EventOrStop) (u w : World) (s t : ScriptView) (out : List ℕ)
        (closed : Option ℕ) → IsFirst first → HaveNoRestart lines → Plays first_router first lines before u s out →
        IsPlayed u s (settle_line None) events w t closed → w.missed ≡ first.missed → AreAnswered first w }
{}

/// Where the last line is `settle`, and lines before it started nodes again, and no node missed a step: every request that was taken since the last such line
/// is answered, and every write among them is served.
#[tactic(auto, using(crate::proofs::Settled::restarted_scripts_are_answered))]
pub fn restarted_scripts_are_answered()
    ensures { (first_router : ℕ) (first : World) (lines : List (List ℕ)) (events : List EventOrStop) (w : World) (s : ScriptView) (out : List ℕ) →
        IsFirst first → Plays first_router first lines events w s out → EndInSettle lines → w.missed ≡ first.missed
        → AreAnsweredAfterRestarts first_router first lines events w }
{}
