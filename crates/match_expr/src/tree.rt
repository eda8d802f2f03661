//! Queries as trees: clauses, and tests of the values at a path.

ghost use Rattle.std.specs.Prelude.{◌≡◌, ◌≤◌, ◌+◌, All};
ghost use Rattle.query_model.specs.Queries.{no_clauses, no_queries, no_tests};
ghost use Rattle.match_expr.specs.Sizes.{clause_size, queries_size, query_size, test_size, tests_size};
ghost use Rattle.match_expr.specs.View.{clause_of, queries_before, query_before, test_of, tests_before};

use crate::operand_list::OperandList;
use bson_values::{Array, Value};
use field_paths::Path;
use std::marker::Model;

/// How the queries of a clause are joined.
#[derive(Clone, Copy, PartialEq, Eq)]
pub enum Connective {
    And,
    Or,
    Nor,
}

/// A query: clauses, which all have to hold.
#[cycle(query)]
#[derive(Drop)]
pub struct Clauses {
    pub(crate) clauses: Vec<Clause>,
}

/// One field of a query.
#[cycle(query)]
#[derive(Drop)]
pub enum Clause {
    /// Tests of the values at a path.
    At {
        path: Path,
        tests: Tests,
    },
    /// Equality of the values at a path with a value, as the one test, which most clauses are and which takes no list of tests.
    Equal {
        path: Path,
        operand: Value,
    },
    /// Queries inside `$and`, `$or` or `$nor`.
    Joined {
        connective: Connective,
        queries: Queries,
    },
}

/// Queries inside `$and`, `$or` or `$nor`.
#[cycle(query)]
#[derive(Drop)]
pub struct Queries {
    pub(crate) queries: Vec<Clauses>,
}

/// Tests, which all have to hold.
#[cycle(query)]
#[derive(Drop)]
pub struct Tests {
    pub(crate) tests: Vec<Test>,
}

/// An operator with its operand.
#[cycle(query)]
#[derive(Drop)]
pub enum Test {
    Eq(Value),
    Ne(Value),
    Gt(Value),
    Gte(Value),
    Lt(Value),
    Lte(Value),
    In(OperandList),
    Nin(OperandList),
    All(Array),
    Size(i64),
    Exists(bool),
    /// `$elemMatch` of a query.
    ElementQuery(Clauses),
    /// `$elemMatch` of an operator document.
    ElementTests(Tests),
    Not(Tests),
}

impl Model for Clauses {
    ghost use Rattle.query_model.specs.Queries.{Query, no_clauses};
    ghost use Rattle.match_expr.specs.Code.{query_code};

    ghost Value = { Query };

    ghost coded = { query_code };

    ghost use Rattle.match_expr.specs.View.{query_before};
    ghost use Rattle.match_expr.specs.Sizes.{query_size};

    ghost view = { λ q. query_before q.clauses.items no_clauses };

    ghost size = { query_size };

    ghost use Rattle.match_expr.specs.Falls.{clauses_fall};

    ghost size_decreases = { λ q h. clauses_fall q.clauses.items };
}

impl Model for Queries {
    ghost use Rattle.query_model.specs.Queries as model;
    ghost use Rattle.match_expr.specs.Code.{queries_code};

    ghost Value = { model.Queries };

    ghost coded = { queries_code };

    ghost use Rattle.match_expr.specs.View.{queries_before};
    ghost use Rattle.match_expr.specs.Sizes.{queries_size};

    ghost view = { λ q. queries_before q.queries.items model.no_queries };

    ghost size = { queries_size };

    ghost use Rattle.match_expr.specs.Falls.{queries_fall};

    ghost size_decreases = { λ q h. queries_fall q.queries.items };
}

impl Model for Tests {
    ghost use Rattle.query_model.specs.Queries as queries;
    ghost use Rattle.match_expr.specs.Code.{tests_code};

    ghost Value = { queries.Tests };

    ghost coded = { tests_code };

    ghost use Rattle.match_expr.specs.View.{tests_before};
    ghost use Rattle.match_expr.specs.Sizes.{tests_size};

    ghost view = { λ t. tests_before t.tests.items queries.no_tests };

    ghost size = { tests_size };

    ghost use Rattle.match_expr.specs.Falls.{tests_fall};

    ghost size_decreases = { λ t h. tests_fall t.tests.items };
}

impl Clauses {
    // Returns the clauses, in order.
    #[tactic(auto, using(crate::proofs::Views::clauses_inside))]
    pub(crate) fn clauses(&self) -> &[Clause]
        ensures clauses { query_before result.now no_clauses ≡ self.now }
        ensures inside { All (λ c. clause_size (clause_of c) ≤ query_size self.now) result.now }
    {
        self.clauses.as_slice()
    }
}

impl Queries {
    // Returns the queries, in order.
    #[tactic(auto, using(crate::proofs::Views::queries_inside))]
    pub(crate) fn queries(&self) -> &[Clauses]
        ensures queries { queries_before result.now no_queries ≡ self.now }
        ensures inside { All (λ q. query_size q + 1 ≤ queries_size self.now) result.now }
    {
        self.queries.as_slice()
    }
}

impl Tests {
    // Returns the tests, in order.
    #[tactic(auto, using(crate::proofs::Views::tests_inside))]
    pub(crate) fn tests(&self) -> &[Test]
        ensures tests { tests_before result.now no_tests ≡ self.now }
        ensures inside { All (λ t. test_size (test_of t) ≤ tests_size self.now) result.now }
    {
        self.tests.as_slice()
    }
}
