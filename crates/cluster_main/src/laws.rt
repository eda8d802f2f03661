//! The laws between the definitions.

ghost use Rattle.std.specs.Prelude.{◌≢◌, ℕ, ◌<◌};
ghost use Rattle.cluster_main.specs.Names.{journal_name};

/// Of the first hundred nodes no two have one journal.
pub fn own_journals()
    ensures { (i j : ℕ) → i < j → j < 100 → journal_name i ≢ journal_name j }
{}
