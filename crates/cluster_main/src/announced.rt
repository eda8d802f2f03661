//! A port that tells when it is open.

ghost use Rattle.std.specs.Prelude.{◌≡◌, ◌≤◌, OnOk, OnErr};
ghost use Rattle.outside.specs.Causes.{Rose};

use outside::streams::{Acceptor, Failed};
use std::io::Eprint;

/// An acceptor that writes a line to standard error once it listens, so that a script can wait for it. A line that can't be written is left out.
#[derive(Drop)]
pub struct Announced<A: Acceptor + Drop, R: Eprint + Drop> {
    acceptor: A,
    runtime: R,
}

impl<A: Acceptor + Drop, R: Eprint + Drop> Announced<A, R> {
    /// Returns the acceptor as one that writes the line.
    pub fn new(acceptor: A, rt: R) -> Announced<A, R>
        ensures { result.acceptor ≡ acceptor }
    {
        Announced {
            acceptor,
            runtime: rt,
        }
    }
}

impl<A: Acceptor + Drop, R: Eprint + Drop> Acceptor for Announced<A, R> {
    type Link = A::Link;

    ghost tells = { A.tells };

    ghost left = { λ a. A.left a.acceptor };

    ghost fault_count = { λ a. A.fault_count a.acceptor };

    fn listen(&mut self, port: u16) -> Result<(), Failed> {
        self.acceptor.listen(port)?;
        let _ = eprintln!(self.runtime; "cluster: listening on port {port}");
        Ok(())
    }

    fn next(&mut self) -> Result<Option<A::Link>, Failed> {
        self.acceptor.next()
    }
}
