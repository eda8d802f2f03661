//! Worked values of sums: one outside int64, and one that is shown. Each with replies beside it that are wrong.

ghost use Rattle.std.specs.Prelude.{◌≡◌, ◌∷◌, List, [], None, Ok};
ghost use Rattle.command_model.specs.Command.{command_of, find_command};
ghost use Rattle.command_model.specs.Cursors.{Batch};
ghost use Rattle.pipeline_model.specs.Stages.{group_stage};
ghost use Rattle.reply_model.specs.Cursors.{Cursor};
ghost use Rattle.reply_model.specs.Right.{IsRight};
ghost use Rattle.reply_laws.specs.SampleExchanges.{IsToldRightly, IsToldWrongly, created, account_of};
ghost use Rattle.reply_laws.specs.SampleReads.{one, three, two};
ghost use Rattle.reply_laws.specs.SampleSums.{both_valued, greatest, of_sum, sum_spec, summing, told_batch, told_fault, told_overflow};
ghost use Rattle.reply_laws.specs.SampleTimes.{find_in, reading_of};

/// The greatest int64 and 1: the read is refused, whatever a batch could show, and opens no cursor.
pub fn overflows()
    ensures asked { command_of summing.request ≡ Ok (find_command (find_in (reading_of (group_stage sum_spec ∷ []) None None))) }
    ensures refused { IsToldRightly (both_valued greatest one) summing told_overflow }
    ensures never_shown { (b : Batch) → IsToldWrongly (both_valued greatest one) summing (told_batch b) }
    ensures no_statement { IsToldWrongly (both_valued greatest one) summing told_fault }
    ensures no_cursor { (next : List Cursor) → IsRight (account_of (both_valued greatest one) [] []) [] summing told_overflow next → next ≡ [] }
{}

/// 1 and 1: the sum is shown, and is not outside int64.
pub fn small_sums()
    ensures shown { IsToldRightly (both_valued one one) summing (told_batch (of_sum two)) }
    ensures another { IsToldWrongly (both_valued one one) summing (told_batch (of_sum three)) }
    ensures never_refused { IsToldWrongly (both_valued one one) summing told_overflow }
{}
