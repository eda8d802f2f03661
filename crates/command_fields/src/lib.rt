//! The fields of commands: what is checked of each, and what it is read as.
#![tactic(auto)]

mod checks;
mod concern;
mod copies;
mod documents;
mod fault;
mod ids;
mod namespaces;
mod pipelines;
mod rules;
mod statements;
mod words;
mod write_fields;

pub use checks::{
    boolean_needed, boolean_or, check_required, document_needed, false_needed, natural_needed,
    number_given, passed, string_needed, unless_passes, whole_number,
};
pub use concern::{concern_needed, time_given};
pub use copies::documents_or_none;
pub use documents::documents_moved;
pub use fault::CheckFault;
pub use ids::{key_in, key_needed, shard_key_needed};
pub use namespaces::{check_database, collection_of, database_of, full_name_of, namespace_of};
pub use pipelines::{PipelineWord, pipeline_in, pipeline_told};
pub use rules::{Rules, check_behind_own, check_fields, common_ruling};
pub use statements::operations_of;
pub use words::{Word, WordKind, held, put_numbers, put_word, word_in, word_told, words_in};
pub use write_fields::{
    check_count, client_number, documents_needed, has_documents, session_needed, statements_name,
    whole_needed,
};
