//! The statuses that a connection ends with.

ghost use Rattle.std.specs.Prelude.{◌≡◌};
ghost use Rattle.pipe_driver.specs.Stops.{status_for};

use node_traits::NotTaken;

/// How a connection ended, by its cause.
#[derive(Clone, Copy, Debug, PartialEq, Eq)]
pub enum Status {
    /// The input was read to its end.
    InputEnded,
    /// A read failed.
    ReadFailed,
    /// A write failed.
    WriteFailed,
    /// A call of a disk failed.
    DiskFailed,
    /// Out of memory, or a router was at its last step.
    OutOfMemory,
    /// The next bytes are no request.
    BadInput,
    /// As many bytes were taken as may be, and the end was not met.
    InputTooLong,
}

impl Status {
    /// Returns the status of a fault of a step.
    pub fn of(fault: NotTaken) -> Status
        ensures { result ≡ status_for fault }
    {
        match fault {
            NotTaken::Disk { .. } => Status::DiskFailed,
            NotTaken::Steps => Status::OutOfMemory,
            NotTaken::Memory => Status::OutOfMemory,
        }
    }
}
