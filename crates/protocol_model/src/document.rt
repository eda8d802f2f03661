//! Documents that clients insert.

ghost use Rattle.std.specs.Prelude.{◌≡◌, IfOk};
ghost use Rattle.std.specs.Arc.{arc_value};
ghost use Rattle.command_model.specs.CommandSizes.{IsKeepable};
ghost use Rattle.history_model.specs.History.{insert_operation};

use bson_values::{Document, Memory};
use std::alloc::Global;
use std::marker::Model;
use std::sync::Arc;

/// A document that a client inserts: it has a key and is within the size of documents (MongoDB manual, "insert"), so it may be stored. It is shared with its
/// other owners.
#[derive(Drop)]
pub struct NewDocument {
    document: Arc<Document, Global>,
}

impl Model for NewDocument {
    ghost use Rattle.bson_model.specs.Tree.{Fields};
    ghost use Rattle.bson_values.specs.Code.{fields_code};

    ghost Value = { Fields };

    ghost coded = { fields_code };

    ghost use Rattle.std.specs.Arc.{arc_value};
    ghost use Rattle.command_model.specs.CommandSizes.{IsKeepable};
    ghost use Rattle.history_model.specs.History.{insert_operation};

    ghost view = { λ d. arc_value d.document };

    ghost invariant = { λ d. IsKeepable (insert_operation (arc_value d.document)) };
}

impl NewDocument {
    /// Returns the document, to be shared, or `Memory` if memory runs out.
    pub fn of(alloc: Global, document: Document) -> Result<NewDocument, Memory>
        requires { IsKeepable (insert_operation document) }
        ensures { IfOk result (λ new. new ≡ document) }
    {
        let document = Arc::new(alloc, document)?;
        Ok(NewDocument { document })
    }

    /// Returns the document, which may be stored.
    pub fn document(&self) -> &Arc<Document, Global>
        ensures same { arc_value result.now ≡ self.now }
        ensures keepable { IsKeepable (insert_operation self.now) }
    {
        &self.document
    }

    /// Returns a copy, which shares the document, or `Memory` if memory runs out.
    pub fn copy(&self) -> Result<NewDocument, Memory>
        ensures { IfOk result (λ new. new ≡ self.now) }
    {
        let document = Arc::try_clone(&self.document)?;
        Ok(NewDocument { document })
    }
}
