//! The order of paths, in which edits are applied: part by part, by bytes (own; MongoDB's is that of field names, with numbers by value).

ghost use Rattle.std.specs.Prelude.{◌≡◌, [], IfOk, OnOk};
ghost use Rattle.std.specs.BTreeMap.{insert_entry};
ghost use Rattle.std.specs.List.{list_all};
ghost use Rattle.std.specs.Cmp.{partial_equiv_from_equiv, partial_order_from_agreeing_total};
ghost use Rattle.std.specs.Str.{bytes_eq};
ghost use Rattle.std.specs.Ordering.{as_partial_cmp, eq_by_cmp};
ghost use Rattle.std.proofs.Common.{refl};
ghost use Rattle.std.proofs.lemmas.Cmp.{eq_by_cmp_equiv};
ghost use Rattle.query_model.proofs.EditOrder.{path_order_total};
ghost use Rattle.query_model.specs.Changes as changes;
ghost use Rattle.query_model.specs.Changes.{change_of, path_order, put_among};
ghost use Rattle.field_paths.specs.ReadFaults.{Gives};
ghost use Rattle.update_ops.specs.View as view;
ghost use Rattle.update_ops.specs.View.{edits_of, entries_of};

use crate::change::{Edit, PathEdit, Update};
use bson_values::{Memory, Name};
use field_paths::ParseFault;
use std::alloc::Global;
use std::cmp::Ordering;
use std::collections::BTreeMap;
use std::marker::Model;

// Compares two paths.
fn compare_paths(a: &[Name], b: &[Name]) -> Ordering
    ensures { result ≡ path_order a.now b.now }
{
    let mut others = b.iter();
    for name in a {
        let Some(other) = others.next() else {
            return Ordering::Greater;
        };
        match name.as_str().cmp(other.as_str()) {
            Ordering::Equal => {}
            apart => return apart,
        }
    }
    if others.next().is_some() {
        Ordering::Less
    } else {
        Ordering::Equal
    }
}

// A path that is compared in the order of paths.
#[derive(Drop)]
struct OrderedPath {
    names: Vec<Name>,
}

impl Model for OrderedPath {
    ghost use Rattle.std.specs.Prelude.{List, ℕ};

    ghost Value = { List (List ℕ) };

    ghost view = { λ p. p.names.items };
}

impl PartialEq for OrderedPath {
    ghost eq = { eq_by_cmp path_order };

    ghost laws = { partial_equiv_from_equiv (eq_by_cmp_equiv path_order_total) };

    fn eq(&self, other: &OrderedPath) -> bool {
        compare_paths(&self.names, &other.names) == Ordering::Equal
    }
}

impl Eq for OrderedPath {
    ghost laws = { eq_by_cmp_equiv path_order_total };
}

impl PartialOrd for OrderedPath {
    ghost partial_cmp = { as_partial_cmp path_order };

    ghost laws = { partial_order_from_agreeing_total path_order path_order_total (λ x y. refl) (λ x y. refl) };

    fn partial_cmp(&self, other: &OrderedPath) -> Option<Ordering> {
        Some(self.cmp(other))
    }
}

impl Ord for OrderedPath {
    ghost cmp = { path_order };

    ghost total = { path_order_total };

    ghost matches_partial_cmp = { λ x y. refl };

    ghost matches_eq = { λ x y. refl };

    fn cmp(&self, other: &OrderedPath) -> Ordering {
        compare_paths(&self.names, &other.names)
    }
}

// Returns whether two names are equal.
fn is_same(a: &Name, b: &Name) -> bool
    ensures { result ≡ bytes_eq a.now b.now }
{
    a.as_str() == b.as_str()
}

// Returns whether neither path is a prefix of the other.
#[tactic(auto, using(crate::proofs::Apart::apart_here, crate::proofs::Apart::apart_next, crate::proofs::Apart::apart_none))]
fn is_apart(a: &[Name], b: &[Name]) -> bool
    ensures { result ≡ changes.is_apart a.now b.now }
{
    let Some((name, names)) = a.split_first() else {
        return false;
    };
    let Some((other, others)) = b.split_first() else {
        return false;
    };
    if is_same(name, other) {
        is_apart(names, others)
    } else {
        true
    }
}

// Returns whether a path is apart from those of all these edits.
fn is_apart_from_all(path: &[Name], edits: &[PathEdit]) -> bool
    ensures { result ≡ list_all (λ e. changes.is_apart path.now e.0) (edits_of edits.now) }
{
    for edit in edits {
        if !is_apart(path, &edit.path) {
            return false;
        }
    }
    true
}

// Returns whether no path occurs twice or is a prefix of another.
fn are_apart(edits: &[PathEdit]) -> bool
    ensures { result ≡ changes.are_apart (edits_of edits.now) }
{
    let mut rest = edits;
    'edits: while let Some((first, others)) = rest.split_first() {
        if !is_apart_from_all(&first.path, others) {
            return false;
        }
        rest = others;
    }
    true
}

// Returns edits by their paths as a list, or `Memory` if memory runs out.
fn listed(alloc: Global, by_path: BTreeMap<OrderedPath, Edit>) -> Result<Vec<PathEdit>, Memory>
    ensures { IfOk result (λ es. edits_of es.items ≡ entries_of by_path.entries) }
{
    let mut edits = Vec::new(alloc);
    let mut left = by_path;
    'entries: while let Some((path, edit)) = left.pop_first() {
        edits.push(PathEdit {
            path: path.names,
            edit,
        })?;
    }
    Ok(edits)
}

// Inserts an edit by its path. Returns `Memory` if memory runs out.
fn put_entry(by_path: &mut BTreeMap<OrderedPath, Edit>, entry: PathEdit) -> Result<(), Memory>
    ensures { OnOk result (by_path.new.entries ≡ insert_entry path_order by_path.old.entries entry.path.items entry.edit) }
{
    let PathEdit { path, edit } = entry;
    by_path.insert(OrderedPath { names: path }, edit)?;
    Ok(())
}

// Sorts edits by their paths. Returns `Memory` if memory runs out.
#[tactic(auto, using(crate::proofs::Sorting::entries_insert))]
fn sorted(alloc: Global, edits: Vec<PathEdit>) -> Result<Vec<PathEdit>, Memory>
    ensures { IfOk result (λ es. edits_of es.items ≡ put_among [] (edits_of edits.items)) }
{
    let mut by_path = BTreeMap::new(alloc);
    for entry in edits {
        put_entry(&mut by_path, entry)?;
    }
    listed(alloc, by_path)
}

/// Returns the change that edits are, in the order of their paths. Returns `BadOperand` where a path occurs twice or is a prefix of another, and `Memory` if
/// memory runs out.
pub fn in_order(alloc: Global, edits: Vec<PathEdit>) -> Result<Update, ParseFault>
    ensures gives { Gives view.change_of result (change_of (edits_of edits.items)) }
{
    if are_apart(&edits) {
        Ok(Update::Edits(sorted(alloc, edits)?))
    } else {
        Err(ParseFault::BadOperand)
    }
}
