//! The laws between the definitions.

ghost use Rattle.std.specs.Prelude.{◌≡◌, Some, Ok, true};
ghost use Rattle.std.specs.List.{list_all};
ghost use Rattle.bson_model.specs.Tree.{Fields};
ghost use Rattle.opmsg_model.specs.Requests.{Request};
ghost use Rattle.opmsg_model.specs.MessageSizes.{IsSmallBody, IsWithin};
ghost use Rattle.base_model.specs.Refusals.{Evidence, evidence_document};
ghost use Rattle.pipeline_model.specs.Stages.{has_int64};
ghost use Rattle.command_model.specs.Answers.{Answer, answer_document};
ghost use Rattle.command_model.specs.Command.{command_of, count_command, find_command};
ghost use Rattle.command_model.specs.Find.{Find};
ghost use Rattle.command_model.specs.Reading.{Reading};
ghost use Rattle.command_model.specs.CommandSizes.{IsSmallAnswer, IsSmallEvidence, IsTaken};
ghost use Rattle.bson_model.specs.Limits.{most_bytes_written, most_depth_written};

/// The command of a request is as small as the request: at most 100,000 documents, each with a key and no larger than a document that is read; or it is a
/// refusal with a short name.
#[tactic(auto, using(command_model::proofs::Taken::command_taken))]
pub fn commands_are_small()
    ensures { (request : Request) → IsSmallBody request.body → IsTaken (command_of request) }
{}

/// Evidence of at most ten tries is small, and all other evidence.
pub fn evidence_is_small()
    ensures { (evidence : Evidence) (document : Fields) → IsSmallEvidence evidence → evidence_document evidence ≡ Some document → IsWithin 10 1000 document }
{}

/// The documents of small answers are within the limits of what is written.
#[tactic(auto, using(crate::proofs::SmallAnswers::answer_small))]
pub fn answers_are_small()
    ensures { (answer : Answer) → IsSmallAnswer answer → IsWithin most_depth_written most_bytes_written (answer_document answer) }
{}

/// The numbers of documents that a command skips or keeps are less than 2^63.
#[tactic(auto, using(command_model::proofs::Taken::int64_of_find, command_model::proofs::Taken::int64_of_count))]
pub fn numbers_are_small()
    ensures find { (request : Request) (find : Find) → command_of request ≡ Ok (find_command find) → list_all has_int64 find.reading.stages ≡ true }
    ensures count { (request : Request) (reading : Reading) → command_of request ≡ Ok (count_command reading) → list_all has_int64 reading.stages ≡ true }
{}
