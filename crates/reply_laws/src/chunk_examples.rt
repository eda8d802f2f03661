//! Worked values of replies about chunks: that a collection was created, that a chunk begins at a key, that there is no such collection.

ghost use Rattle.std.specs.Prelude.{◌≡◌, ◌∷◌, List, [], Ok, codes};
ghost use Rattle.command_model.specs.Command.{command_of, shard_collection_command, split_command};
ghost use Rattle.command_laws.specs.SampleRequests.{five, long_five, six};
ghost use Rattle.chunk_model.specs.Catalogue.{Commit};
ghost use Rattle.chunk_model.specs.Changes.{commit_change, create_change};
ghost use Rattle.chunk_model.specs.SampleCollections.{creation};
ghost use Rattle.reply_model.specs.Exchanges.{Asked};
ghost use Rattle.reply_model.specs.Accounts.{changes_in};
ghost use Rattle.reply_model.specs.OneHistory.{IsCaused, WasWanted};
ghost use Rattle.reply_laws.specs.SampleExchanges.{created, first, first_entry, first_told, account_by};
ghost use Rattle.reply_laws.specs.SampleChunks.{IsRightBy, IsWrongBy, created_in, created_other, sharding, split_in, split_of, split_once, splitting, told_none, told_sharded, told_split};

/// The reply to shardCollection is right from the time on at which the collection was created, whoever created it; not before, and not where another
/// collection was created.
pub fn shard_replies()
    ensures asked { command_of sharding.request ≡ Ok (shard_collection_command (codes "d.c")) }
    ensures right { IsRightBy created sharding (told_sharded 2) }
    ensures just_then { IsRightBy created sharding (told_sharded 1) }
    ensures early { IsWrongBy created sharding (told_sharded 0) }
    ensures another_name { IsWrongBy created_other sharding (told_sharded 2) }
    ensures none { IsWrongBy [] sharding (told_sharded 2) }
{}

/// The reply to split is right after a split at that key, which an int64 is too, also where the chunk is split again later. It is not right without one,
/// before it, after one at another key, and where there is no such collection.
pub fn split_replies()
    ensures asked { command_of splitting.request ≡ Ok (split_command (record { namespace = codes "d.c"; middle = five })) }
    ensures right { IsRightBy (split_once five) splitting (told_split 3) }
    ensures same_key { IsRightBy (split_once long_five) splitting (told_split 3) }
    ensures split_again { IsRightBy (split_of six 4 ∷ split_once five) splitting (told_split 3) }
    ensures not_split { IsWrongBy created splitting (told_split 3) }
    ensures early { IsWrongBy (split_once five) splitting (told_split 1) }
    ensures another_key { IsWrongBy (split_once six) splitting (told_split 3) }
    ensures not_created { IsWrongBy (split_of five 2 ∷ []) splitting (told_split 3) }
{}

/// That there is no such collection is caused where it never was created, or after the request came; not where it was created before.
pub fn causes()
    ensures right { IsRightBy [] splitting told_none }
    ensures none { IsCaused (account_by [] [] (splitting ∷ []) []) told_none }
    ensures created_after { IsCaused (account_by (created_in 5) [] (splitting ∷ []) []) told_none }
    ensures created_before { IsCaused (account_by (created_in 3) [] (splitting ∷ []) []) told_none → ⊥ }
{}

/// What a reply says was so by its step: a reply about a collection or a split that is made in a later step is not caused, though it is right by all changes
/// of the run. Nor is the reply to a write.
pub fn changes_come_first()
    ensures created { IsCaused (account_by (created_in 5) [] (sharding ∷ []) []) (told_sharded 2) }
    ensures created_later { IsCaused (account_by (created_in 6) [] (sharding ∷ []) []) (told_sharded 2) → ⊥ }
    ensures right_later { IsRightBy (changes_in (created_in 6)) sharding (told_sharded 2) }
    ensures split { IsCaused (account_by (split_in 7) [] (splitting ∷ []) []) (told_split 3) }
    ensures split_later { IsCaused (account_by (split_in 8) [] (splitting ∷ []) []) (told_split 3) → ⊥ }
    ensures split_right { IsRightBy (changes_in (split_in 8)) splitting (told_split 3) }
    ensures write { IsCaused (account_by (created_in 3) (first_entry ∷ []) (first ∷ []) []) first_told }
    ensures write_later { IsCaused (account_by (created_in 4) (first_entry ∷ []) (first ∷ []) []) first_told → ⊥ }
{}

/// The changes that are made for a request: its collection is created, or a chunk is split at its key, as the client wrote it. None is made to move a chunk.
pub fn wanted_changes()
    ensures created { WasWanted (sharding ∷ []) (create_change creation) }
    ensures split { WasWanted (splitting ∷ []) (split_of five 2) }
    ensures split_alone { WasWanted (splitting ∷ []) (create_change creation) → ⊥ }
    ensures another_key { WasWanted (splitting ∷ []) (split_of six 2) → ⊥ }
    ensures moved { (asked : List Asked) (c : Commit) → WasWanted asked (commit_change c) → ⊥ }
{}
