//! The laws between the definitions.

ghost use Rattle.std.specs.Prelude.{◌≡◌, ℕ, List, map};
ghost use Rattle.std.specs.List.{AllByRecursion};
ghost use Rattle.node_model.specs.Journal.{changes_kept};
ghost use Rattle.node_model.specs.States.{NodeState};
ghost use Rattle.node_model.specs.World.{Held, World, journal_at, history_of};
ghost use Rattle.journal_starts.specs.Journals.{AreJournals, IsHistory};
ghost use Rattle.journal_starts.specs.Records.{AreOpened, AreRefused, HaveRecords};
ghost use Rattle.journal_starts.specs.Starts.{BeginsOnFiles};

/// The files of the nodes store one history at most, and one list of changes of the catalogue.
pub fn one_history()
    ensures { (files : List (List ℕ)) (nodes others : List Held) → AreJournals files nodes → AreJournals files others → IsHistory nodes → IsHistory others →
        (changes_kept (journal_at nodes 0) ≡ changes_kept (journal_at others 0)) × (history_of nodes ≡ history_of others) }
{}

/// In the world that a call begins in, its files are the journals of the nodes.
#[tactic(auto, using(crate::proofs::Starts::starts_are_stored))]
pub fn starts_are_stored()
    ensures { (others routers : ℕ) (files : List (List ℕ)) (first : World) → BeginsOnFiles others routers files first → AreJournals files first.nodes }
{}

/// Nodes that are opened on the records of the files are in the states that nodes have in that world.
#[tactic(auto, using(crate::proofs::Starts::starts_are_opened))]
pub fn starts_are_opened()
    ensures { (others routers : ℕ) (files : List (List ℕ)) (first : World) (found : List (List (List ℕ))) (states : List NodeState) → BeginsOnFiles others routers files first
        → HaveRecords files found → AreOpened others 0 found states → states ≡ map (λ h. h.state) first.nodes }
{}

/// In that world no node has taken a step of the call.
#[tactic(auto, using(crate::proofs::Begun::begins_uncounted))]
pub fn starts_are_uncounted()
    ensures { (others routers : ℕ) (files : List (List ℕ)) (first : World) → BeginsOnFiles others routers files first →
        AllByRecursion (λ h. h.steps ≡ 0) first.nodes }
{}

/// No opening on such files is refused.
pub fn starts_are_not_refused()
    ensures { (others routers : ℕ) (files : List (List ℕ)) (first : World) → BeginsOnFiles others routers files first → ¬ AreRefused others files }
{}

/// Where nodes are opened on the records of the files, no opening is refused.
pub fn opened_are_not_refused()
    ensures { (others : ℕ) (files : List (List ℕ)) (found : List (List (List ℕ))) (states : List NodeState) → HaveRecords files found
        → AreOpened others 0 found states → ¬ AreRefused others files }
{}
