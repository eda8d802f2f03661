//! Whether two outcomes are the same.

ghost use Rattle.std.specs.Prelude.{◌≡◌};
ghost use Rattle.node_replay.specs.SameData.{same_key_data, same_words};
ghost use Rattle.statement_views.specs.Views.{outcome_view};

use value_compare::{Key, Reply};

// Returns whether both keys, if there are such, are the same data.
#[tactic(auto, using(crate::proofs::KeyData::same_keys))]
fn same_keys(a: &Option<Key>, b: &Option<Key>) -> bool
    ensures { result ≡ same_key_data a.now b.now }
{
    match a {
        None => b.is_none(),
        Some(a) => match b {
            None => false,
            Some(b) => a.value().same_data(b.value()),
        },
    }
}

/// Returns whether both outcomes are the same.
pub(crate) fn same_reply(a: &Reply, b: &Reply) -> bool
    ensures { result ≡ same_words (outcome_view a.now) (outcome_view b.now) }
{
    a.n == b.n
        && (a.modified == b.modified && (same_keys(&a.upserted, &b.upserted) && a.code == b.code))
}
