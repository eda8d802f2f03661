//! Messages or replies of a step that were not taken out yet.

ghost use Rattle.std.specs.Prelude.{◌≡◌, ◌++◌, [], IfNone, option_to_list};

use node_traits::SpareList;
use std::collections::VecDeque;
use std::marker::Model;

/// Items in order, the last of them maybe in a room of its own.
#[derive(Drop)]
pub(crate) struct Queue<T: Drop> {
    items: VecDeque<T>,
    last: Option<T>,
}

impl<T: Drop> Model for Queue<T> {
    ghost use Rattle.std.specs.Prelude.{List, ◌++◌};
    ghost use Rattle.node_traits.specs.Lists.{listed};

    ghost Value = { List T };

    ghost view = { λ q. q.items.items ++ listed q.last };
}

impl<T: Drop> Queue<T> {
    /// Returns the items of a list.
    pub(crate) fn of(list: SpareList<T>) -> Queue<T>
        ensures { result ≡ list }
    {
        let (items, last) = list.into_parts();
        Queue {
            items: VecDeque::from_vec(items),
            last,
        }
    }

    /// Takes the first item out.
    pub(crate) fn next(&mut self) -> Option<T>
        ensures all { self.old ≡ option_to_list result ++ self.new }
        ensures none { IfNone result (self.old ≡ []) }
    {
        match self.items.pop_front() {
            Some(item) => Some(item),
            None => self.last.take(),
        }
    }
}
