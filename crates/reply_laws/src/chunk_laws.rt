//! The laws of replies about chunks.

ghost use Rattle.std.specs.Prelude.{◌≡◌, ◌<◌, ◌≤◌, ◌++◌, ℕ, List};
ghost use Rattle.std.specs.List.{AllByRecursion};
ghost use Rattle.bson_model.specs.Tree.{Datum};
ghost use Rattle.chunk_model.specs.Catalogue.{Creation};
ghost use Rattle.chunk_model.specs.Changes.{Change, create_change, time_of};
ghost use Rattle.history_model.specs.History.{IsIn};
ghost use Rattle.reply_model.specs.Exchanges.{Asked, Answered};
ghost use Rattle.reply_model.specs.Accounts.{Account};
ghost use Rattle.reply_model.specs.Cursors.{Cursor};
ghost use Rattle.reply_model.specs.Right.{IsRight, WasCreated, WasSplit};
ghost use Rattle.reply_model.specs.OneHistory.{OneHistory};

/// What was created stays created, and what was split stays split, whatever changes follow: so what a reply to shardCollection or split rests on holds at each
/// later time.
pub fn changes_stay()
    ensures created { (more changes : List Change) (namespace : List ℕ) (before time : ℕ) → WasCreated changes namespace before → before ≤ time
        → WasCreated (more ++ changes) namespace time }
    ensures split { (more changes : List Change) (namespace : List ℕ) (key : Datum) (before time : ℕ) → WasSplit changes namespace key before → before ≤ time
        → WasSplit (more ++ changes) namespace key time }
{}

/// A right reply stays right by more changes, where these are later than what its router knew as it took the request and as it replied.
#[tactic(auto, using(crate::proofs::StandingChanges::right_stays))]
pub fn replies_stay_right()
    ensures { (more : List Change) (account : Account) (cursors next : List Cursor)
        (a : Asked) (t : Answered) → AllByRecursion (λ (x : Change). a.time < time_of x) more
        → AllByRecursion (λ (x : Change). t.time < time_of x) more
        → IsRight account cursors a t next → IsRight (record account { changes = more ++ account.changes }) cursors a t next }
{}

/// A name is created once.
pub fn one_creation()
    ensures { (account : Account) (c d : Creation)
        → OneHistory account → IsIn (create_change c) account.changes → IsIn (create_change d) account.changes
        → c.namespace ≡ d.namespace → c ≡ d }
{}
