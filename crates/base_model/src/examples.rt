//! The definitions on values that one can check by hand.

ghost use Rattle.std.specs.Prelude.{◌≡◌, [], codes, Some, None, false, true};
ghost use Rattle.base_model.specs.Refusals.{time_ahead};
ghost use Rattle.base_model.specs.SampleReplies.{ahead_reply, done_reply};
ghost use Rattle.base_model.specs.Names.{IsCollectionName, IsDatabaseName, IsNamespace, MakeNamespace, full_name, is_reserved};
ghost use Rattle.base_model.specs.ReplyParts.{operation_time, refusal_reply};
ghost use Rattle.base_model.specs.Times.{retained_at, time_of_moment, timestamp};

/// Moments count milliseconds, and times count seconds and steps.
pub fn moments()
    ensures second { time_of_moment 1000000 ≡ timestamp 1000 0 }
    ensures before { time_of_moment 999 ≡ 0 }
    ensures last { time_of_moment 9000000000000 ≡ timestamp 2147483648 0 }
    ensures number { timestamp 1000 2 ≡ 4294967296002 }
    ensures retained { (retained_at 1000000 ≡ timestamp 700 0) × (retained_at 299999 ≡ 0) }
{}

/// Names of databases, of collections and of namespaces.
pub fn names()
    ensures database { IsDatabaseName (codes "d") × (IsDatabaseName (codes "a.b") → ⊥) × (IsDatabaseName [] → ⊥) }
    ensures collection { IsCollectionName (codes "a.b") × (IsCollectionName (codes ".b") → ⊥) × (IsCollectionName (codes "a$b") → ⊥) }
    ensures namespace { MakeNamespace (codes "d") (codes "c") × (MakeNamespace (codes "d") [] → ⊥) × (full_name (codes "d") (codes "c") ≡ codes "d.c") }
    ensures reserved { (is_reserved (codes "admin") ≡ true) × (is_reserved (codes "d") ≡ false) }
{}

/// What is a full name.
pub fn full_names()
    ensures full { IsNamespace (codes "d.c") }
    ensures none { IsNamespace [] → ⊥ }
{}

/// A refusal's reply, and the times that replies have.
pub fn replied()
    ensures refusal { refusal_reply (time_ahead (timestamp 1000 2)) ≡ ahead_reply }
    ensures time { (operation_time (Some done_reply) ≡ Some (timestamp 1000 2)) × (operation_time (Some ahead_reply) ≡ None) × (operation_time None ≡ None) }
{}
