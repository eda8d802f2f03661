//! The laws of the grammar.

ghost use Rattle.std.specs.Prelude.{◌≡◌, ℕ, List};
ghost use Rattle.bson_model.specs.Grammar.{ReadsAs};
ghost use Rattle.bson_model.specs.Tree.{Fields};

/// Bytes encode at most one document (BSON 1.1, "Specification").
pub fn one_document()
    ensures { (bytes : List ℕ) (a b : Fields) → ReadsAs bytes a → ReadsAs bytes b → a ≡ b }
{}
