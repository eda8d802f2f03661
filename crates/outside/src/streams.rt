//! Streams of bytes: sources, sinks, and the links that clients open.
ghost use Rattle.std.specs.Prelude.{◌≡◌, ℕ, ◌<◌, ◌≤◌, List, [], ◌++◌, length, take, option_to_list, Bool, IsTrue, IfOk, OnOk, OnErr};
ghost use Rattle.outside.specs.Causes.{Rose};
ghost use Rattle.outside.specs.Notes.{Note};
ghost use Rattle.outside.specs.Streams.{Took, Put};

/// The device failed. The request was not carried out, and its count of faults rose.
#[derive(Clone, Copy, Debug, PartialEq, Eq)]
pub struct Failed;

/// A stream that bytes are taken from.
pub trait Source {
    // Whether the bytes that it gives are observable.
    ghost tells: { Bool };

    // The bytes that are left, where they are observable.
    ghost left: { Self → List ℕ };

    // How many faults the source has met.
    ghost fault_count: { Self → ℕ };

    // What a take does not change. Where the value is a sink too, this is the sink's content and its count of faults.
    ghost beside: { Self → List ℕ × ℕ } = { λ _. ([], 0) };

    // What a take does not change of notes. Where the value is a sink too, these are the sink's.
    ghost beside_notes: { Self → List Note } = { λ _. [] };

    /// Takes bytes into the front of `buf`, and returns their number. 0, for a `buf` with room, means the end of the stream. It may take fewer bytes than
    /// there is room for.
    ///
    /// # Errors
    /// `Failed` if the source met a fault: no byte was taken, and the fault is counted.
    fn take(&mut self, buf: &mut [u8]) -> Result<usize, Failed>
        ensures count { IfOk result (λ n. n ≤ length buf.old) }
        ensures len { length buf.new ≡ length buf.old }
        ensures took { IfOk result (λ n. Took tells (left self.old) (take n buf.new) (left self.new)) }
        ensures at_end { IfOk result (λ n. 0 < length buf.old → n ≡ 0 → IsTrue tells → left self.new ≡ []) }
        ensures nothing { OnErr result (Took tells (left self.old) [] (left self.new)) }
        ensures cause { OnErr result (Rose (fault_count self.old) (fault_count self.new)) }
        ensures calm { OnOk result (fault_count self.new ≡ fault_count self.old) }
        ensures later { fault_count self.old ≤ fault_count self.new }
        ensures aside { beside self.new ≡ beside self.old }
        ensures aside_notes { beside_notes self.new ≡ beside_notes self.old };
}

/// A stream that bytes are written to.
pub trait Sink {
    // Whether the bytes written to it are observable.
    ghost tells: { Bool };

    // The bytes written to it, where they are observable.
    ghost held: { Self → List ℕ };

    // The disks that were noted, in order, where they are observable. Only a witness, or a link to which disks are shown, takes notes.
    ghost noted: { Self → List Note } = { λ _. [] };

    // How many faults the sink has met.
    ghost fault_count: { Self → ℕ };

    // What a write does not change. Where the value is a source too, this is what the source has left, and its count of faults.
    ghost beside: { Self → List ℕ × ℕ } = { λ _. ([], 0) };

    /// Writes bytes from the front of `piece`, and returns their number: at least one, if `piece` has any.
    ///
    /// # Errors
    /// `Failed` if the sink met a fault: no byte was written, and the fault is counted.
    fn put(&mut self, piece: &[u8]) -> Result<usize, Failed>
        ensures count { IfOk result (λ n. n ≤ length piece.now) }
        ensures some { IfOk result (λ n. 0 < length piece.now → 0 < n) }
        ensures put { IfOk result (λ n. Put tells (held self.old) (take n piece.now) (held self.new)) }
        ensures noted { noted self.new ≡ noted self.old }
        ensures nothing { OnErr result (Put tells (held self.old) [] (held self.new)) }
        ensures cause { OnErr result (Rose (fault_count self.old) (fault_count self.new)) }
        ensures calm { OnOk result (fault_count self.new ≡ fault_count self.old) }
        ensures later { fault_count self.old ≤ fault_count self.new }
        ensures aside { beside self.new ≡ beside self.old };
}

/// A stream in both directions, each with its own count of faults.
pub trait Stream: Source + Sink {
    // A take does not change what was written and the faults of writes.
    ghost take_is_apart: { (l : Self) → Self.Source.beside l ≡ (Self.Sink.held l, Self.Sink.fault_count l) };

    // Nor does it change the notes.
    ghost take_keeps_notes: { (l : Self) → Self.Source.beside_notes l ≡ Self.Sink.noted l };

    // A write does not change what is left and the faults of takes.
    ghost put_is_apart: { (l : Self) → Self.Sink.beside l ≡ (Self.Source.left l, Self.Source.fault_count l) };
}

/// A client's link: requests are taken from it, and replies are written to it.
pub trait Link: Stream {
    // Whether the link was closed.
    ghost is_closed: { Self → Bool };

    /// Closes the link in both directions: the client learns it, and no byte comes or goes any more.
    fn close(&mut self)
        ensures closed { IsTrue (is_closed self.new) }
        ensures left { Self.Source.left self.new ≡ Self.Source.left self.old }
        ensures held { Self.Sink.held self.new ≡ Self.Sink.held self.old }
        ensures noted { Self.Sink.noted self.new ≡ Self.Sink.noted self.old }
        ensures takes { Self.Source.fault_count self.new ≡ Self.Source.fault_count self.old }
        ensures puts { Self.Sink.fault_count self.new ≡ Self.Sink.fault_count self.old };
}

/// A place where clients open links.
pub trait Acceptor {
    /// The link that a client opens.
    type Link: Link + Drop;

    // Whether the links that it returns are observable.
    ghost tells: { Bool };

    // The links that are to come, in order, where they are observable.
    ghost left: { Self → List Self.Link };

    // How many faults the acceptor has met.
    ghost fault_count: { Self → ℕ };

    /// Listens on a port from now on.
    ///
    /// # Errors
    /// `Failed` if the acceptor met a fault, which is counted.
    fn listen(&mut self, port: u16) -> Result<(), Failed>
        ensures left { left self.new ≡ left self.old }
        ensures cause { OnErr result (Rose (fault_count self.old) (fault_count self.new)) }
        ensures calm { OnOk result (fault_count self.new ≡ fault_count self.old) }
        ensures later { fault_count self.old ≤ fault_count self.new };

    /// Returns the next link that a client opens; `None` if none was opened for a moment, so that the caller may do something else meanwhile.
    ///
    /// # Errors
    /// `Failed` if the acceptor met a fault, which is counted.
    fn next(&mut self) -> Result<Option<Self::Link>, Failed>
        ensures took { IfOk result (λ link. IsTrue tells → left self.old ≡ option_to_list link ++ left self.new) }
        ensures nothing { OnErr result (left self.new ≡ left self.old) }
        ensures cause { OnErr result (Rose (fault_count self.old) (fault_count self.new)) }
        ensures calm { OnOk result (fault_count self.new ≡ fault_count self.old) }
        ensures later { fault_count self.old ≤ fault_count self.new };
}
