//! Where the keys of the documents that filters match are (MongoDB manual, "Targeted Operations vs. Broadcast Operations").

ghost use Rattle.std.specs.Prelude.{◌≡◌, ◌∷◌, ◌++◌, ◌&&◌, [], IfOk, OnOk, filter, if◌then◌else◌, map};
ghost use Rattle.std.specs.Ordering.{is_le};
ghost use Rattle.bson_values.specs.View.{datum_of};
ghost use Rattle.query_model.specs.KeySpans.{among_values, from_value, is_within, narrowed_by, narrowed_by_all, narrowed_by_clause, narrowed_by_test, narrowed_by_tests, no_limits, point_at, range_between, spans_between, spans_of, up_to_value, with_key, with_keys};
ghost use Rattle.query_model.specs.Paths.{elements};
ghost use Rattle.value_model.specs.Keys.{order_bounds, point_span};
ghost use Rattle.value_compare.specs.Bounds.{bound_of};
ghost use Rattle.value_compare.specs.Spans.{span_of};
ghost use Rattle.match_expr.specs.View.{clause_of, test_of};

use crate::expr::Expr;
use crate::keys::{as_key, is_id};
use crate::tree::{Clause, Clauses, Connective, Queries, Test, Tests};
use bson_values::{Array, Memory, Value};
use std::alloc::Global;
use std::collections::BTreeSet;
use std::marker::Model;
use std::mem;
use value_compare::{Bound, Key, KeyRange, Span, SpanList};

/// What is known of the keys of documents: two bounds, and a set of keys that they are among, if a filter lists some.
#[derive(Drop)]
pub struct KeyLimits {
    alloc: Global,
    least: Bound,
    greatest: Bound,
    with_greatest: bool,
    points: Option<BTreeSet<Key>>,
}

impl Model for KeyLimits {
    ghost use Rattle.query_model.specs.KeySpans as limits;
    ghost use Rattle.match_expr.specs.Limits.{limits_code};

    ghost Value = { limits.KeyLimits };

    ghost coded = { limits_code };

    ghost use Rattle.std.specs.Option.{option_map};
    ghost use Rattle.value_compare.specs.Bounds.{bound_of};

    ghost view = { λ l. record {
      least = bound_of l.least;
      greatest = bound_of l.greatest;
      with_greatest = l.with_greatest;
      points = option_map (λ s. s.keys) l.points;
    } };
}

// Adds the value to the keys if it may be a key; a key that compares equal stays. Returns `Memory` if memory runs out.
fn add_key(keys: &mut BTreeSet<Key>, value: &Value) -> Result<(), Memory>
    ensures { OnOk result (keys.new.keys ≡ with_key keys.old.keys (datum_of value.now)) }
{
    if let Some(key) = as_key(value)? {
        keys.insert(key)?;
    }
    Ok(())
}

// Returns the values of an array that may be keys, in order and each once. Returns `Memory` if memory runs out.
fn keys_among(alloc: Global, array: &Array) -> Result<BTreeSet<Key>, Memory>
    ensures { IfOk result (λ s. s.keys ≡ with_keys [] (elements array.now)) }
{
    let mut keys = BTreeSet::new(alloc);
    for value in array.values() {
        add_key(&mut keys, value)?;
    }
    Ok(keys)
}

// Returns the key alone, if the value may be one. Returns `Memory` if memory runs out.
fn key_alone(alloc: Global, value: &Value) -> Result<BTreeSet<Key>, Memory>
    ensures { IfOk result (λ s. s.keys ≡ with_key [] (datum_of value.now)) }
{
    let mut keys = BTreeSet::new(alloc);
    add_key(&mut keys, value)?;
    Ok(keys)
}

// Returns whether a key is within the bounds.
fn is_within(least: &Bound, greatest: &Bound, with_greatest: bool, key: &Key) -> bool
    ensures { result ≡ is_within (bound_of least.now) (bound_of greatest.now) with_greatest key.now }
{
    let from_least = least.compare_to_key(key).is_le();
    let to_greatest = greatest.compare_to_key(key);
    from_least && (to_greatest.is_gt() || (with_greatest && to_greatest.is_eq()))
}

// Returns the keys within the bounds, as points. Returns `Memory` if memory runs out.
fn points_within(
    alloc: Global,
    least: &Bound,
    greatest: &Bound,
    with_greatest: bool,
    keys: BTreeSet<Key>,
) -> Result<SpanList, Memory>
    ensures { IfOk result (λ s. s ≡ map point_span (filter (is_within (bound_of least.now) (bound_of greatest.now) with_greatest) keys.keys)) }
{
    let mut spans = Vec::new(alloc);
    for key in keys {
        if is_within(least, greatest, with_greatest, &key) {
            spans.push(Span::Point(key))?;
        }
    }
    Ok(SpanList::of(spans))
}

// Returns the range between the bounds, if the least is below the greatest. Returns `Memory` if memory runs out.
fn range_between(alloc: Global, least: Bound, greatest: Bound) -> Result<Vec<Span>, Memory>
    ensures { IfOk result (λ s. map span_of s.items ≡ range_between (bound_of least) (bound_of greatest)) }
{
    let mut spans = Vec::new(alloc);
    let Some(range) = KeyRange::new(least, greatest) else {
        return Ok(spans);
    };
    spans.push(Span::Range(range))?;
    Ok(spans)
}

// Returns the spans, followed by the point at a bound, if it is wanted and the bound is a key. Returns `Memory` if memory runs out.
fn with_end(spans: Vec<Span>, end: Bound, is_wanted: bool) -> Result<Vec<Span>, Memory>
    ensures { IfOk result (λ s. map span_of s.items ≡ map span_of spans.items ++ (if is_wanted then point_at (bound_of end) else [])) }
{
    let mut all = spans;
    if !is_wanted {
        return Ok(all);
    }
    if let Bound::At(key) = end {
        all.push(Span::Point(key))?;
    }
    Ok(all)
}

// Returns whether the greatest bound is included, and is not below the least.
fn reaches_end(least: &Bound, greatest: &Bound, with_greatest: bool) -> bool
    ensures { result ≡ (with_greatest && is_le (order_bounds (bound_of least.now) (bound_of greatest.now))) }
{
    with_greatest && least.compare(greatest).is_le()
}

// Returns the range between the bounds and the point at the greatest, as far as these exist. Returns `Memory` if memory runs out.
fn range_within(
    alloc: Global,
    least: Bound,
    greatest: Bound,
    with_greatest: bool,
) -> Result<SpanList, Memory>
    ensures { IfOk result (λ s. s ≡ spans_between (bound_of least) (bound_of greatest) with_greatest) }
{
    let has_end = reaches_end(&least, &greatest, with_greatest);
    let end = greatest.copy()?;
    let range = range_between(alloc, least, greatest)?;
    let spans = with_end(range, end, has_end)?;
    Ok(SpanList::of(spans))
}

impl KeyLimits {
    /// Returns limits of which nothing is known.
    pub fn new(alloc: Global) -> KeyLimits
        ensures { result ≡ no_limits }
    {
        KeyLimits {
            alloc,
            least: Bound::MinKey,
            greatest: Bound::MaxKey,
            with_greatest: false,
            points: None,
        }
    }

    /// Adds what is known of the keys of documents that match the filter too. Returns `Memory` if memory runs out.
    pub fn narrow(&mut self, filter: &Expr) -> Result<(), Memory>
        ensures { OnOk result (self.new ≡ narrowed_by filter.now self.old) }
    {
        self.narrow_by_query(filter.query())
    }

    #[cycle(narrow)]
    fn narrow_by_query(&mut self, query: &Clauses) -> Result<(), Memory>
        ensures { OnOk result (self.new ≡ narrowed_by query.now self.old) }
    {
        for clause in query.clauses() {
            self.narrow_by_clause(clause)?;
        }
        Ok(())
    }

    #[cycle(narrow)]
    fn narrow_by_clause(&mut self, clause: &Clause) -> Result<(), Memory>
        ensures { OnOk result (self.new ≡ narrowed_by_clause (clause_of clause.now) self.old) }
    {
        match clause {
            Clause::At { path, tests } => {
                if is_id(path) {
                    self.narrow_by_tests(tests)
                } else {
                    Ok(())
                }
            }
            Clause::Equal { path, operand } => {
                if is_id(path) {
                    self.name_one(operand)
                } else {
                    Ok(())
                }
            }
            Clause::Joined {
                connective,
                queries,
            } => match connective {
                Connective::And => self.narrow_by_all(queries),
                Connective::Or => Ok(()),
                Connective::Nor => Ok(()),
            },
        }
    }

    #[cycle(narrow)]
    fn narrow_by_all(&mut self, queries: &Queries) -> Result<(), Memory>
        ensures { OnOk result (self.new ≡ narrowed_by_all queries.now self.old) }
    {
        for query in queries.queries() {
            self.narrow_by_query(query)?;
        }
        Ok(())
    }

    fn narrow_by_tests(&mut self, tests: &Tests) -> Result<(), Memory>
        ensures { OnOk result (self.new ≡ narrowed_by_tests tests.now self.old) }
    {
        for test in tests.tests() {
            self.narrow_by_test(test)?;
        }
        Ok(())
    }

    fn narrow_by_test(&mut self, test: &Test) -> Result<(), Memory>
        ensures { OnOk result (self.new ≡ narrowed_by_test (test_of test.now) self.old) }
    {
        match test {
            Test::Eq(operand) => self.name_one(operand),
            Test::In(operands) => self.name_all(operands.listed()),
            Test::Gt(operand) => self.begin_at(operand),
            Test::Gte(operand) => self.begin_at(operand),
            Test::Lt(operand) => self.end_at(operand, false),
            Test::Lte(operand) => self.end_at(operand, true),
            _ => Ok(()),
        }
    }

    // The key is this value, unless a filter listed some before.
    fn name_one(&mut self, value: &Value) -> Result<(), Memory>
        ensures { OnOk result (self.new ≡ among_values (datum_of value.now ∷ []) self.old) }
    {
        if self.points.is_none() {
            let keys = key_alone(self.alloc, value)?;
            let _none = mem::replace(&mut self.points, Some(keys));
        }
        Ok(())
    }

    // The keys are among these values, unless a filter listed some before.
    fn name_all(&mut self, values: &Array) -> Result<(), Memory>
        ensures { OnOk result (self.new ≡ among_values (elements values.now) self.old) }
    {
        if self.points.is_none() {
            let keys = keys_among(self.alloc, values)?;
            let _none = mem::replace(&mut self.points, Some(keys));
        }
        Ok(())
    }

    // No key is below the value, if it may be a key.
    fn begin_at(&mut self, value: &Value) -> Result<(), Memory>
        ensures { OnOk result (self.new ≡ from_value (datum_of value.now) self.old) }
    {
        if let Some(key) = as_key(value)? {
            if self.least.compare_to_key(&key).is_lt() {
                drop(mem::replace(&mut self.least, Bound::At(key)));
            }
        }
        Ok(())
    }

    // No key is above the value, if it may be a key, nor equal to it unless it is included.
    fn end_at(&mut self, value: &Value, with_it: bool) -> Result<(), Memory>
        ensures { OnOk result (self.new ≡ up_to_value (datum_of value.now) with_it self.old) }
    {
        if let Some(key) = as_key(value)? {
            if self.greatest.compare_to_key(&key).is_gt() {
                drop(mem::replace(&mut self.greatest, Bound::At(key)));
                self.with_greatest = with_it;
            }
        }
        Ok(())
    }

    /// Returns the ranges and points where the keys are, or `Memory` if memory runs out.
    pub fn into_spans(self) -> Result<SpanList, Memory>
        ensures { IfOk result (λ s. s ≡ spans_of self) }
    {
        let KeyLimits {
            alloc,
            least,
            greatest,
            with_greatest,
            points,
        } = self;
        match points {
            Some(keys) => points_within(alloc, &least, &greatest, with_greatest, keys),
            None => range_within(alloc, least, greatest, with_greatest),
        }
    }
}
