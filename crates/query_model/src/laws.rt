//! The laws between the definitions.

ghost use Rattle.std.specs.Prelude.{◌≡◌, ◌≢◌, ◌∷◌, ℕ, List, true, Err, Ok, Some};
ghost use Rattle.std.specs.List.{join_with_byte};
ghost use Rattle.std.specs.List.Sorted.{IsStrictlySortedBy};
ghost use Rattle.std.specs.Map.{keys_of};
ghost use Rattle.std.specs.Str.{bytes_eq};
ghost use Rattle.bson_model.specs.Grammar.{IsWithinDepth, ReadsAs};
ghost use Rattle.bson_model.specs.Spelling.{written};
ghost use Rattle.bson_model.specs.Tree.{Datum, Fields};
ghost use Rattle.value_model.specs.Keys.{AreAscending, inside_some, key_of, valid_key};
ghost use Rattle.value_model.specs.Order.{same_value};
ghost use Rattle.query_model.specs.Paths.{Path, read_path};
ghost use Rattle.query_model.specs.Queries.{Query, too_deep};
ghost use Rattle.query_model.specs.Reading.{read_query};
ghost use Rattle.query_model.specs.Holds.{holds};
ghost use Rattle.query_model.specs.DocumentKeys.{key_asked_in};
ghost use Rattle.query_model.specs.KeySpans.{key_asked, span_of};
ghost use Rattle.query_model.specs.Changes.{Change, Edit, edits, is_apart, path_order, read_change};
ghost use Rattle.query_model.specs.Edits.{changed, put_at, take_at, value_at};
ghost use Rattle.query_model.specs.Writes.{start_of};

/// A document with a key of which a query holds has its key inside the query's span. The ranges and points of that are in the order of
/// keys, and no key is inside two of them.
pub fn keys_in_span()
    ensures inside { (asked : Query) (document : Fields) (key : Datum) → valid_key document ≡ Ok key
        → holds asked document ≡ true → inside_some (span_of asked) key ≡ true }
    ensures ascending { (asked : Query) → AreAscending (span_of asked) }
{}

/// A document that reads as a query targets the key that the query targets.
pub fn keys_of_documents()
    ensures { (document : Fields) (asked : Query) → read_query document ≡ Ok asked → key_asked_in document ≡ key_asked asked }
{}

/// The parts of a path, with a dot between each two, are the name that it was read from. So two names are not one path.
pub fn names_of_paths()
    ensures { (name : List ℕ) (path : Path) → read_path name ≡ Ok path → join_with_byte 46 path ≡ name }
{}

/// A document of at most 100 levels is not too deep to be a query.
pub fn never_too_deep()
    ensures { (document : Fields) → IsWithinDepth document → read_query document ≢ Err too_deep }
{}

/// A value that is put at a path is found there; the value at a path that is no prefix of it, nor it of that, stays.
#[tactic(auto, using(crate::proofs::Puts::put_stands, crate::proofs::Puts::put_leaves))]
pub fn put_leaves_all_else()
    ensures stands { (part : List ℕ) (parts : Path) (value : Datum) (document after : Fields) → put_at (part ∷ parts) value document ≡ Ok after
        → value_at (part ∷ parts) after ≡ Some value }
    ensures others { (p q : Path) (value : Datum) (document after : Fields) → is_apart p q ≡ true → put_at p value document ≡ Ok after
        → value_at q after ≡ value_at q document }
{}

/// A removal at a path keeps the value at a path that is no prefix of it, nor it of that.
#[tactic(auto, using(crate::proofs::Puts::take_leaves))]
pub fn take_leaves_all_else()
    ensures { (p q : Path) (document : Fields) → is_apart p q ≡ true → value_at q (take_at p document) ≡ value_at q document }
{}

/// The edits of a change are in the order of their paths, each path once.
#[tactic(auto, using(crate::proofs::EditOrder::edits_in_order))]
pub fn edits_in_order()
    ensures { (document : Fields) (es : List (Path × Edit)) → read_change document ≡ Ok (edits es) → IsStrictlySortedBy path_order (keys_of es) }
{}

/// A change of a document with a key results in one whose key compares equal; an upsert begins with the key that its filter targets.
pub fn changes_keep_keys()
    ensures changes { (change : Change) (before after : Fields) (key : Datum) → valid_key before ≡ Ok key → changed change before ≡ Ok after
        → (k : Datum) × (valid_key after ≡ Ok k) × (same_value k key ≡ true) }
    ensures upserts { (asked : Query) → key_of (start_of asked) ≡ key_asked asked }
{}

/// Documents that are determined by their encodings are equal where these are: so an update counts as modified just what became other data.
#[tactic(auto, using(crate::proofs::EditOrder::one_spelling))]
pub fn modified_is_other_data()
    ensures { (before after : Fields) → ReadsAs (written before) before → ReadsAs (written after) after → bytes_eq (written before) (written after) ≡ true
        → before ≡ after }
{}
