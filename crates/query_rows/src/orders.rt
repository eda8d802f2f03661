//! How documents compare.

use crate::shape_documents::{first_document, row_fault};
use fixtures::{RowFault, Rows};
use sort_keys::{SortSpec, compare_keys, sort_key};
use std::alloc::Global;
use std::cmp::Ordering;

/// `SORT | DOCUMENT | DOCUMENT | SIGN`: how the first document compares with the second, `<`, `=` or `>`; the second compares with the first conversely.
#[derive(Drop)]
pub struct Orders;

impl Rows for Orders {
    fn holds(&mut self, alloc: Global, row: &str) -> Result<bool, RowFault> {
        let (words, others) = first_document(alloc, row)?;
        let (first, others) = first_document(alloc, others)?;
        let (second, sign) = first_document(alloc, others)?;
        let spec = SortSpec::parse(alloc, &words).map_err(row_fault)?;
        let first = sort_key(alloc, &spec, &first)?;
        let second = sort_key(alloc, &spec, &second)?;
        let forth = compare_keys(&spec, &first, &second);
        let back = compare_keys(&spec, &second, &first);
        Ok(sign_of(forth) == sign && back == forth.reverse())
    }
}

fn sign_of(order: Ordering) -> &'static str {
    match order {
        Ordering::Less => "<",
        Ordering::Equal => "=",
        Ordering::Greater => ">",
    }
}
