//! The results of projections.

use crate::shape_documents::{first_document, row_fault};
use fixtures::{RowFault, Rows};
use projection::{Projection, project};
use std::alloc::Global;

/// `PROJECTION | DOCUMENT | DOCUMENT`, where the last one is the projection of the other.
#[derive(Drop)]
pub struct Projections;

impl Rows for Projections {
    fn holds(&mut self, alloc: Global, row: &str) -> Result<bool, RowFault> {
        let (words, others) = first_document(alloc, row)?;
        let (document, others) = first_document(alloc, others)?;
        let (wanted, _none) = first_document(alloc, others)?;
        let projection = Projection::parse(alloc, &words).map_err(row_fault)?;
        let left = project(alloc, &projection, &document)?;
        Ok(left.same_data(&wanted))
    }
}
