//! A list that only proofs read. It takes no memory, and its methods do nothing at run time.
ghost use Rattle.std.specs.Prelude.{◌≡◌, List, [], ◌∷◌, ◌++◌};
ghost use Rattle.std.specs.Borrow.{ftrue};

use std::marker::{Model, PhantomData};

/// A list of pairs, which clauses read as `items`.
#[derive(Drop)]
pub struct GhostList<A, B> {
    of: PhantomData<(A, B)>,
    pub ghost items: { List (A × B) },
}

impl<A, B> Model for GhostList<A, B> {
    ghost also_owns = { λ _. ftrue };
}

// It owns nothing.
unsafe impl<A: Send, B: Send> Send for GhostList<A, B> {}

impl<A, B> GhostList<A, B> {
    /// Returns the empty list.
    pub fn new() -> GhostList<A, B>
        ensures { result.items ≡ [] }
    {
        GhostList { of: PhantomData }
    }

    /// Returns the list with one pair appended.
    pub fn with(&self, first: &A, second: &B) -> GhostList<A, B>
        ensures { result.items ≡ self.now.items ++ (first.now, second.now) ∷ [] }
    {
        GhostList { of: PhantomData }
    }
}
