//! The law of the rows of documents and of parts.

ghost use Rattle.std.specs.Prelude.{◌++◌, List, flat_map, map};
ghost use Rattle.std.specs.List.{AllZip};
ghost use Rattle.bson_model.specs.Tree.{Fields};
ghost use Rattle.pipeline_model.specs.GroupSpecs.{GroupSpec};
ghost use Rattle.pipeline_model.specs.Groups.{IsGrouped, IsJoined, PartialRow, own_row};

/// The rows of documents that were added, joined with rows of parts, are the rows that those documents are grouped into, joined with those of the parts.
pub fn rows_stand_for_documents()
    ensures { (spec : GroupSpec) (docs : List Fields) (parts : List (List Fields)) (partials : List (List PartialRow)) (rows : List PartialRow)
        → AllZip (IsGrouped spec) parts partials → IsJoined spec (map (own_row spec) docs ++ flat_map (λ part. part) partials) rows
        → IsGrouped spec (docs ++ flat_map (λ part. part) parts) rows }
{}
