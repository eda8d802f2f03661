//! Worked values of reads: their times, counts, and limits. Each with replies beside it that are wrong.

ghost use Rattle.std.specs.Prelude.{◌≡◌, ◌∷◌, [], codes, None, Ok, Some, pos};
ghost use Rattle.command_model.specs.Answers.{answer_document, first_answer};
ghost use Rattle.command_model.specs.Command.{command_of, count_command, find_command};
ghost use Rattle.command_laws.specs.SampleRequests.{with_id};
ghost use Rattle.base_model.specs.Times.{timestamp};
ghost use Rattle.bson_model.specs.Tree.{no_fields};
ghost use Rattle.pipeline_model.specs.Stages.{count_stage, limit_stage, skip_stage, sort_stage};
ghost use Rattle.reply_laws.specs.SampleExchanges.{IsToldRightly, IsToldWrongly, tells};
ghost use Rattle.reply_laws.specs.SampleReads.{all_three, batch, kept, one, three, two};
ghost use Rattle.reply_laws.specs.SampleTimes.{all_four, at_most_two, by_x, concern_after, concern_at, counting, few_of, find_in, grown, least_one, reading_of, reads_all, told_ahead, told_at, told_count};

/// What the requests are.
pub fn asked_of_reads()
    ensures whole { command_of (reads_all no_fields).request ≡ Ok (find_command (find_in (reading_of [] None None))) }
    ensures after { command_of (reads_all (concern_after 5)).request ≡ Ok (find_command (find_in (reading_of [] None (Some (timestamp 1000 5))))) }
    ensures at { command_of (reads_all (concern_at 3)).request ≡ Ok (find_command (find_in (reading_of [] (Some (timestamp 1000 3)) None))) }
    ensures two { command_of (reads_all at_most_two).request ≡ Ok (find_command (find_in (reading_of (limit_stage 2 ∷ []) None None))) }
    ensures least { command_of (reads_all least_one).request ≡ Ok (find_command (find_in (reading_of (sort_stage by_x ∷ limit_stage 1 ∷ []) None None))) }
    ensures count { command_of (counting (few_of 1 5)).request ≡ Ok (count_command
        (reading_of (skip_stage 1 ∷ limit_stage 5 ∷ count_stage (codes "n") ∷ []) None None)) }
{}

/// A find that names no time is of the router's as it took the request.
pub fn own_times()
    ensures own { IsToldRightly grown (reads_all no_fields) (told_at (reads_all no_fields) 4 all_three) }
    ensures later { IsToldWrongly grown (reads_all no_fields) (told_at (reads_all no_fields) 5 all_four) }
    ensures last { IsToldWrongly grown (reads_all no_fields) (told_at (reads_all no_fields) 6 all_four) }
    ensures earlier { IsToldWrongly grown (reads_all no_fields) (told_at (reads_all no_fields) 3 (with_id one ∷ with_id two ∷ [])) }
{}

/// One that is to reach a time is of the router's, where that has reached it; or else of one that the router reached later. Where it has not,
/// the read is ahead of the router's.
pub fn times_reached()
    ensures same { IsToldRightly grown (reads_all (concern_after 4)) (told_at (reads_all (concern_after 4)) 4 all_three) }
    ensures same_later { IsToldWrongly grown (reads_all (concern_after 4)) (told_at (reads_all (concern_after 4)) 5 all_four) }
    ensures passed { IsToldRightly grown (reads_all (concern_after 3)) (told_at (reads_all (concern_after 3)) 4 all_three) }
    ensures passed_earlier { IsToldWrongly grown (reads_all (concern_after 3)) (told_at (reads_all (concern_after 3)) 3 (with_id one ∷ with_id two ∷ [])) }
    ensures later { IsToldRightly grown (reads_all (concern_after 5)) (told_at (reads_all (concern_after 5)) 5 all_four) }
    ensures last { IsToldRightly grown (reads_all (concern_after 5)) (told_at (reads_all (concern_after 5)) 6 all_four) }
    ensures earlier { IsToldWrongly grown (reads_all (concern_after 5)) (told_at (reads_all (concern_after 5)) 4 all_three) }
    ensures unreached { IsToldWrongly grown (reads_all (concern_after 5)) (told_at (reads_all (concern_after 5)) 7 all_four) }
    ensures not_ahead { IsToldWrongly grown (reads_all (concern_after 5)) (told_ahead (reads_all (concern_after 5)) 6) }
    ensures ahead { IsToldRightly grown (reads_all (concern_after 7)) (told_ahead (reads_all (concern_after 7)) 6) }
    ensures ahead_of_less { IsToldWrongly grown (reads_all (concern_after 7)) (told_ahead (reads_all (concern_after 7)) 4) }
    ensures ahead_of_none { IsToldWrongly grown (reads_all (concern_after 7)) (told_ahead (reads_all (concern_after 7)) 7) }
    ensures read_ahead { IsToldWrongly grown (reads_all (concern_after 7)) (told_at (reads_all (concern_after 7)) 6 all_four) }
{}

/// One that names a time is of that one, or ahead.
pub fn times_named()
    ensures named { IsToldRightly grown (reads_all (concern_at 3)) (told_at (reads_all (concern_at 3)) 3 (with_id one ∷ with_id two ∷ [])) }
    ensures another { IsToldWrongly grown (reads_all (concern_at 3)) (told_at (reads_all (concern_at 3)) 4 all_three) }
    ensures not_ahead { IsToldWrongly grown (reads_all (concern_at 3)) (told_ahead (reads_all (concern_at 3)) 6) }
    ensures ahead { IsToldRightly grown (reads_all (concern_at 7)) (told_ahead (reads_all (concern_at 7)) 6) }
    ensures ahead_of_less { IsToldWrongly grown (reads_all (concern_at 7)) (told_ahead (reads_all (concern_at 7)) 4) }
    ensures ahead_of_none { IsToldWrongly grown (reads_all (concern_at 7)) (told_ahead (reads_all (concern_at 7)) 7) }
    ensures read_ahead { IsToldWrongly grown (reads_all (concern_at 7)) (told_at (reads_all (concern_at 7)) 7 all_four) }
{}

/// A count returns how many there are at its time, of those that are not passed over, and no more than its limit, where that is not 0.
pub fn counts()
    ensures all { IsToldRightly kept (counting no_fields) (told_count (counting no_fields) 3 4) }
    ensures too_few { IsToldWrongly kept (counting no_fields) (told_count (counting no_fields) 2 4) }
    ensures too_many { IsToldWrongly kept (counting no_fields) (told_count (counting no_fields) 4 4) }
    ensures passed_over { IsToldRightly kept (counting (few_of 1 5)) (told_count (counting (few_of 1 5)) 2 4) }
    ensures without_limit { IsToldRightly kept (counting (few_of 0 0)) (told_count (counting (few_of 0 0)) 3 4) }
    ensures before_all { IsToldRightly kept (counting (concern_at 0)) (told_count (counting (concern_at 0)) 0 0) }
    ensures before_some { IsToldRightly kept (counting (concern_at 3)) (told_count (counting (concern_at 3)) 2 3) }
    ensures as_batch { IsToldWrongly kept (counting no_fields) (tells (counting no_fields) 7 4 (answer_document (first_answer (batch (pos 0) all_three)))) }
{}

/// Two of three without an order are any two, in either order; the least of documents that compare equal is any of them.
pub fn limits()
    ensures first_two { IsToldRightly kept (reads_all at_most_two) (told_at (reads_all at_most_two) 4 (with_id one ∷ with_id two ∷ [])) }
    ensures other_two { IsToldRightly kept (reads_all at_most_two) (told_at (reads_all at_most_two) 4 (with_id three ∷ with_id one ∷ [])) }
    ensures three { IsToldWrongly kept (reads_all at_most_two) (told_at (reads_all at_most_two) 4 all_three) }
    ensures twice { IsToldWrongly kept (reads_all at_most_two) (told_at (reads_all at_most_two) 4 (with_id two ∷ with_id two ∷ [])) }
    ensures least { IsToldRightly kept (reads_all least_one) (told_at (reads_all least_one) 4 (with_id one ∷ [])) }
    ensures least_too { IsToldRightly kept (reads_all least_one) (told_at (reads_all least_one) 4 (with_id three ∷ [])) }
{}
