//! The laws.

ghost use Rattle.std.specs.Prelude.{◌≡◌, ◌<◌, ◌+◌, ℕ, List, ◌∷◌, ◌++◌, None, Some, true};
ghost use Rattle.std.specs.List.{AllByRecursion};
ghost use Rattle.bson_model.specs.Tree.{Datum};
ghost use Rattle.value_model.specs.Keys.{is_key};
ghost use Rattle.chunk_model.specs.Catalogue.{Commit};
ghost use Rattle.chunk_model.specs.Changes.{Change, chunk_with, commit_change, commit_table, known_table, split_table, time_of};
ghost use Rattle.chunk_model.specs.Placement.{AreFitting, Covers, Follows, SameKeys, owner};
ghost use Rattle.chunk_model.specs.Requests.{CommitWords, changed, commit_answer, create_answer, split_answer};
ghost use Rattle.chunk_model.specs.Tables.{Chunk, Table, collection_version, owner_at, owner_now, shard_version};
ghost use Rattle.chunk_model.specs.Targets.{overlap};
ghost use Rattle.chunk_model.specs.Versions.{agrees};

/// The chunks of each table that fitting changes make cover all keys, from below the least to above the greatest, in order and
/// without overlap (MongoDB manual, "Data Partitioning with Chunks").
#[tactic(auto, using(crate::proofs::Placed::cover))]
pub fn chunks_cover()
    ensures { (namespace : List ℕ) (changes : List Change) (t : Table) → AreFitting changes → known_table namespace changes ≡ Some t → Covers t.chunks }
{}

/// The owner of a key at a time by such a table is the one by the changes alone; where there is no table none owns a key.
#[tactic(auto, using(crate::proofs::Placed::same_owner_at, crate::proofs::Placed::no_owner))]
pub fn tables_keep_owners()
    ensures owners { (namespace : List ℕ) (changes : List Change) (t : Table) (key : Datum) (time : ℕ) → AreFitting changes → known_table namespace changes ≡ Some t → is_key key ≡ true → owner_at t key time ≡ owner namespace key time changes }
    ensures none { (namespace : List ℕ) (changes : List Change) (key : Datum) (time : ℕ) → AreFitting changes → known_table namespace changes ≡ None → owner namespace key time changes ≡ None }
{}

/// A split changes the owner of no key, now and at any time.
#[tactic(auto, using(crate::proofs::Splits::split_now, crate::proofs::Splits::split_at))]
pub fn splits_change_no_owner()
    ensures now { (middle : Datum) (t : Table) (key : Datum) → owner_now (split_table middle t) key ≡ owner_now t key }
    ensures at { (middle : Datum) (t : Table) (key : Datum) (time : ℕ) → owner_at (split_table middle t) key time ≡ owner_at t key time }
{}

/// A commit that fits raises the major number of the collection by one.
#[tactic(auto, using(crate::proofs::Later::raised))]
pub fn commits_raise_the_version()
    ensures { (c : Commit) (older : List Change) (t : Table) → AreFitting (commit_change c ∷ older) → known_table c.namespace older ≡ Some t → (collection_version (commit_table c t)).major ≡ (collection_version t).major + 1 }
{}

/// From a commit on each chunk that overlaps its range has a greater major number than the chunk had that it moved. So the version
/// that the move was asked with is that of no such chunk, for good.
#[tactic(auto, using(crate::proofs::Later::passed_for_good))]
pub fn committed_versions_are_passed()
    ensures { (c : Commit) (older more : List Change) (t u : Table) (moved : Chunk) → AreFitting (more ++ commit_change c ∷ older) → known_table c.namespace older ≡ Some t → chunk_with c.range t.chunks ≡ Some moved → known_table c.namespace (more ++ commit_change c ∷ older) ≡ Some u → AllByRecursion (λ d. overlap d.range c.range ≡ true → moved.version.major < d.version.major) u.chunks }
{}

/// Two tables that fronts of one list of changes make, and in which a shard's versions agree, give the shard the same keys now; and
/// what the shorter one gives it at a time the longer one gives it too. (Not the reverse: of a shard without a chunk both versions
/// have major number 0, and only the longer table may know that it had one in between.)
#[tactic(auto, using(crate::proofs::SameVersion::same_version))]
pub fn same_version_same_keys()
    ensures { (namespace : List ℕ) (shard : ℕ) (more older : List Change) (a b : Table) → AreFitting (more ++ older) → known_table namespace older ≡ Some a → known_table namespace (more ++ older) ≡ Some b → agrees (shard_version a shard) (shard_version b shard) ≡ true → SameKeys shard a b }
{}

/// Each change that the catalogue answers a request with, at a time above those of all changes before it, follows these: so what it
/// admits is a list of changes that fit.
#[tactic(auto, using(crate::proofs::Requests::create_follows))]
pub fn answers_follow()
    ensures create { (namespace : List ℕ) (at : ℕ) (changes : List Change) (x : Change) → AllByRecursion (λ y. time_of y < at) changes → create_answer namespace at changes ≡ changed x → Follows x changes }
    ensures split { (namespace : List ℕ) (middle : Datum) (at : ℕ) (changes : List Change) (x : Change) → AllByRecursion (λ y. time_of y < at) changes → is_key middle ≡ true → split_answer namespace middle at changes ≡ changed x → Follows x changes }
    ensures commit { (words : CommitWords) (at : ℕ) (changes : List Change) (x : Change) → AllByRecursion (λ y. time_of y < at) changes → commit_answer words at changes ≡ changed x → Follows x changes }
{}
