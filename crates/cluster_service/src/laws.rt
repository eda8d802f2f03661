//! The laws of two calls, one after the other, on the same disks: `befores` and `afters` are these before and after the first call. The second one begins on
//! what the first one left, or on what a crash in the middle of it did.

ghost use Rattle.std.specs.Prelude.{ℕ, IsTrue, List, map};
ghost use Rattle.outside.specs.Devices.{SinkCall, SourceCall};
ghost use Rattle.outside.specs.Notes.{Note};
ghost use Rattle.node_model.specs.World.{World};
ghost use Rattle.node_replay.specs.Acknowledged.{KeepsJournals};
ghost use Rattle.driver_steps.specs.Crashes.{LeadsTo};
ghost use Rattle.journal_frames.specs.Files.{Stands};
ghost use Rattle.pipe_driver.specs.Acknowledgements.{IsAcknowledged};
ghost use Rattle.pipe_driver.specs.declared.status.Status as connections;
ghost use Rattle.journal_starts.specs.Starts.{BeginsOnFiles};
ghost use Rattle.cluster_service.specs.AfterCrashes.{AreAfterNotes, MightLeaveAtOnce};
ghost use Rattle.cluster_service.specs.Arguments.{others_of, routers_of};
ghost use Rattle.cluster_service.specs.Crashes.{AreDurableBefore, LeaveAll};
ghost use Rattle.cluster_service.specs.Drivers.{output_of};
ghost use Rattle.cluster_service.specs.Ends.{ends_in};
ghost use Rattle.cluster_service.specs.Headline.{HeadlineOf};
ghost use Rattle.cluster_service.specs.declared.arguments.Command.{Command};

use outside::clock::Clock;
use outside::disk::Disk;
use outside::witness::Witness;

/// Whatever a call ended with, a run of its nodes leads from the world that it begins in to the one that it ends in.
pub fn calls_lead_to_their_ends<D: Disk, K: Witness<D>, C: Clock>()
    ensures { (command : Command) (befores afters : List D) (first : World) (source : SourceCall) (sink : SinkCall) (before notes : List Note) (held : List ℕ)
        (clock : C) (ending : connections.Status) (rest : ℕ) →
        (headline : HeadlineOf command first source sink D.tells (map D.content afters) (LeaveAll first K.tells D.tells D.place D.moment D.left_at before notes befores afters)
        (AreDurableBefore K.tells D.tells D.place D.moment D.left_at command first notes held afters) (C.gives clock) ending rest) →
        LeadsTo first (ends_in command _ _ _ _ _ _ _ _ _ _ headline) }
{}

/// Whatever a call ended with, a next one may begin on the files that it left: there is a world that it begins in.
pub fn calls_go_on<D: Disk, K: Witness<D>, C: Clock>()
    ensures { (command : Command) (befores afters : List D) (first : World) (source : SourceCall) (sink : SinkCall) (before notes : List Note) (held : List ℕ)
        (clock : C) (ending : connections.Status) (rest : ℕ) →
        IsTrue D.tells → BeginsOnFiles (others_of command) (routers_of command) (map D.content befores) first →
        HeadlineOf command first source sink D.tells (map D.content afters) (LeaveAll first K.tells D.tells D.place D.moment D.left_at before notes befores afters)
        (AreDurableBefore K.tells D.tells D.place D.moment D.left_at command first notes held afters) (C.gives clock) ending rest →
        (next : World) × BeginsOnFiles (others_of command) (routers_of command) (map D.content afters) next }
{}

/// The next call loses nothing, in whatever world it begins on the files that the one before left: in each world that it leads to, as in the one in which it
/// ends, each journal has all that it had where the call before ended, in order, and then more. So no write that was acknowledged is lost.
pub fn acknowledged_goes_on<D: Disk, K: Witness<D>, C: Clock>()
    ensures { (command : Command) (befores afters : List D) (first : World) (source : SourceCall) (sink : SinkCall) (before notes : List Note) (held : List ℕ)
        (clock : C) (ending : connections.Status) (rest : ℕ) →
        IsTrue D.tells → BeginsOnFiles (others_of command) (routers_of command) (map D.content befores) first →
        (headline : HeadlineOf command first source sink D.tells (map D.content afters) (LeaveAll first K.tells D.tells D.place D.moment D.left_at before notes befores afters)
        (AreDurableBefore K.tells D.tells D.place D.moment D.left_at command first notes held afters) (C.gives clock) ending rest) →
        (next w : World) → BeginsOnFiles (others_of command) (routers_of command) (map D.content afters) next → LeadsTo next w →
        KeepsJournals (ends_in command _ _ _ _ _ _ _ _ _ _ headline) w }
{}

/// A next call may begin on what a crash in the middle of a call left, of all disks at once, at any moment from the first cut that the notes show to its end.
pub fn crashes_go_on<D: Disk, K: Witness<D>, C: Clock>()
    ensures { (command : Command) (befores afters : List D) (first : World) (source : SourceCall) (sink : SinkCall) (before notes : List Note) (held : List ℕ)
        (clock : C) (ending : connections.Status) (rest : ℕ) →
        IsTrue D.tells → BeginsOnFiles (others_of command) (routers_of command) (map D.content befores) first →
        (headline : HeadlineOf command first source sink D.tells (map D.content afters) (LeaveAll first K.tells D.tells D.place D.moment D.left_at before notes befores afters)
        (AreDurableBefore K.tells D.tells D.place D.moment D.left_at command first notes held afters) (C.gives clock) ending rest) →
        (ts : List ℕ) (files : List (List ℕ)) →
        MightLeaveAtOnce first D.place D.moment D.left_at before notes befores afters (ends_in command _ _ _ _ _ _ _ _ _ _ headline) ts files →
        (next : World) × BeginsOnFiles (others_of command) (routers_of command) files next }
{}

/// And it has what was acknowledged before that crash, in whatever world it begins: in each world that it leads to, each journal has all that it had where the
/// byte was given, in order, and then more. `byte` is the acknowledgement of the byte at an offset of what was written, as the headline gives one for each.
pub fn acknowledged_survives<D: Disk, K: Witness<D>, C: Clock>()
    ensures { (command : Command) (befores afters : List D) (first : World) (source : SourceCall) (sink : SinkCall) (before notes : List Note) (held : List ℕ)
        (clock : C) (ending : connections.Status) (rest : ℕ) →
        IsTrue D.tells → BeginsOnFiles (others_of command) (routers_of command) (map D.content befores) first →
        (headline : HeadlineOf command first source sink D.tells (map D.content afters) (LeaveAll first K.tells D.tells D.place D.moment D.left_at before notes befores afters)
        (AreDurableBefore K.tells D.tells D.place D.moment D.left_at command first notes held afters) (C.gives clock) ending rest) →
        (ts : List ℕ) (files : List (List ℕ)) →
        MightLeaveAtOnce first D.place D.moment D.left_at before notes befores afters (ends_in command _ _ _ _ _ _ _ _ _ _ headline) ts files →
        (put : List ℕ) (offset : ℕ) →
        (byte : IsAcknowledged Stands D.place D.moment D.left_at (output_of command first) first notes held afters
        (ends_in command _ _ _ _ _ _ _ _ _ _ headline) put offset) →
        AreAfterNotes D.place D.moment D.left_at (output_of command first) first notes held afters (ends_in command _ _ _ _ _ _ _ _ _ _ headline) put offset byte ts →
        (next w : World) → BeginsOnFiles (others_of command) (routers_of command) files next → LeadsTo next w → KeepsJournals byte.given w }
{}
