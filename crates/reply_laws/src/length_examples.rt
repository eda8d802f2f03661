//! Worked values of what is too long: documents of 16777216 bytes, the most that is stored, and a longer one.

ghost use Rattle.std.specs.Prelude.{◌≡◌, ◌∷◌, ℕ, List, []};
ghost use Rattle.pipeline_model.specs.SortKeys.{SortSpec};
ghost use Rattle.pipeline_model.specs.Stages.{limit_stage, sort_stage};
ghost use Rattle.history_model.specs.History.{Entry};
ghost use Rattle.reply_laws.specs.SampleLengths.{Holds, IsTooLong};

/// Seven such documents are too much, with the bytes of all; six are not, nor are the first six of seven.
pub fn whole_answers()
    ensures seven { (history : List Entry) → Holds 7 16777216 history → IsTooLong history [] 117440512 }
    ensures seven_alone { (history : List Entry) (n : ℕ) → Holds 7 16777216 history → IsTooLong history [] n → n ≡ 117440512 }
    ensures six { (history : List Entry) (n : ℕ) → Holds 6 16777216 history → IsTooLong history [] n → ⊥ }
    ensures first_six { (history : List Entry) (spec : SortSpec) (n : ℕ) → Holds 7 16777216 history
        → IsTooLong history (sort_stage spec ∷ limit_stage 6 ∷ []) n → ⊥ }
{}

/// A document of an answer that is longer than one that is stored is too long, with its own bytes.
pub fn single_documents()
    ensures longer { (history : List Entry) → Holds 1 16777217 history → IsTooLong history [] 16777217 }
    ensures longer_alone { (history : List Entry) (n : ℕ) → Holds 1 16777217 history → IsTooLong history [] n → n ≡ 16777217 }
    ensures longest_kept { (history : List Entry) (n : ℕ) → Holds 1 16777216 history → IsTooLong history [] n → ⊥ }
{}
