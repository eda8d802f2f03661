//! Lists of messages.

ghost use Rattle.std.specs.Prelude.{◌≡◌, ◌++◌, IfOk, OnOk, map};
ghost use Rattle.node_traits.specs.Lists.{listed};
ghost use Rattle.protocol_model.specs.Messages.{letter_of};

use bson_values::Memory;
use node_traits::SpareList;
use protocol_model::Message;
use std::alloc::Global;

/// Returns the list of the item, if there is one. Returns `Memory` if memory runs out.
pub fn list_of<T: Drop>(alloc: Global, item: Option<T>) -> Result<Vec<T>, Memory>
    ensures { IfOk result (λ list. list.items ≡ listed item) }
{
    let mut list = Vec::new(alloc);
    match item {
        Some(item) => list.push(item)?,
        None => {}
    }
    Ok(list)
}

/// Appends messages to a list, in order. Returns `Memory` if memory runs out.
#[tactic(auto, using(crate::proofs::Written::letters_appended))]
pub(crate) fn add_letters(list: &mut Vec<Message>, more: Vec<Message>) -> Result<(), Memory>
    ensures { OnOk result (map (λ m. letter_of m) list.new.items ≡ map (λ m. letter_of m) list.old.items ++ map (λ m. letter_of m) more.items) }
{
    let mut more = more;
    list.append(&mut more)?;
    Ok(())
}

/// Appends items to a list, in order. Returns `Memory` if memory runs out.
pub fn add_all<T: Drop>(list: &mut SpareList<T>, items: Vec<T>) -> Result<(), Memory>
    ensures { OnOk result (list.new ≡ list.old ++ items.items) }
{
    for item in items {
        list.push(item)?;
    }
    Ok(())
}

/// Returns the list of these items. Returns `Memory` if memory runs out.
pub fn spare_list<T: Drop>(alloc: Global, items: Vec<T>) -> Result<SpareList<T>, Memory>
    ensures { IfOk result (λ list. list ≡ items.items) }
{
    let mut list = SpareList::new(alloc);
    add_all(&mut list, items)?;
    Ok(list)
}
