//! The statuses that a run ends with.

ghost use Rattle.std.specs.Prelude.{◌≡◌};
ghost use Rattle.std.specs.Option.{option_map};
ghost use Rattle.cluster_service.specs.Statuses.{line_of, number_of, of_connection, of_server, with_number};

use conn_server::ServeEnd;
use pipe_driver::Status as Ending;

/// How a run ended, by its cause.
#[derive(Clone, Copy, Debug, PartialEq, Eq)]
pub enum Status {
    /// The input was read to its end, or all connections have ended.
    InputEnded,
    /// The arguments start no nodes.
    BadArguments,
    /// A read failed.
    ReadFailed,
    /// A write failed.
    WriteFailed,
    /// A call of a disk failed.
    DiskFailed,
    /// A journal is damaged, or a record in it is none or may not follow.
    DamagedJournal,
    /// Out of memory, or a node was at its last step.
    OutOfMemory,
    /// No link could be accepted.
    AcceptFailed,
    /// The next bytes are no request.
    BadInput,
    /// As many bytes were taken as may be, and the end was not met.
    InputTooLong,
}

impl Status {
    /// Returns the status of a run whose connection ended with this one.
    pub(crate) fn of(ending: Ending) -> Status
        ensures { result ≡ of_connection ending }
    {
        match ending {
            Ending::InputEnded => Status::InputEnded,
            Ending::ReadFailed => Status::ReadFailed,
            Ending::WriteFailed => Status::WriteFailed,
            Ending::DiskFailed => Status::DiskFailed,
            Ending::OutOfMemory => Status::OutOfMemory,
            Ending::BadInput => Status::BadInput,
            Ending::InputTooLong => Status::InputTooLong,
        }
    }

    /// Returns the status of a server that ended so.
    pub(crate) fn of_server(ending: ServeEnd) -> Status
        ensures { result ≡ of_server ending }
    {
        match ending {
            ServeEnd::Done => Status::InputEnded,
            ServeEnd::AcceptFailed => Status::AcceptFailed,
            ServeEnd::DiskFailed => Status::DiskFailed,
            ServeEnd::OutOfMemory => Status::OutOfMemory,
        }
    }

    /// Returns the number that a process ends with.
    pub fn number(self) -> u8
        ensures { result ≡ number_of self }
    {
        match self {
            Status::InputEnded => 0,
            Status::BadArguments => 2,
            Status::ReadFailed => 3,
            Status::WriteFailed => 4,
            Status::DiskFailed => 5,
            Status::DamagedJournal => 6,
            Status::OutOfMemory => 7,
            Status::AcceptFailed => 8,
            Status::BadInput => 9,
            Status::InputTooLong => 10,
        }
    }

    /// Returns the status with this number, if one has it.
    pub fn with_number(number: u8) -> Option<Status>
        ensures { result ≡ with_number number }
    {
        match number {
            0 => Some(Status::InputEnded),
            2 => Some(Status::BadArguments),
            3 => Some(Status::ReadFailed),
            4 => Some(Status::WriteFailed),
            5 => Some(Status::DiskFailed),
            6 => Some(Status::DamagedJournal),
            7 => Some(Status::OutOfMemory),
            8 => Some(Status::AcceptFailed),
            9 => Some(Status::BadInput),
            10 => Some(Status::InputTooLong),
            _ => None,
        }
    }

    /// Returns the line of the status on standard error, if it is not that of the end.
    pub fn line(self) -> Option<&'static str>
        ensures { option_map (λ line. line.now) result ≡ line_of self }
    {
        match self {
            Status::InputEnded => None,
            Status::BadArguments => Some("cluster: bad words"),
            Status::ReadFailed => Some("cluster: read failed"),
            Status::WriteFailed => Some("cluster: write failed"),
            Status::DiskFailed => Some("cluster: disk failed"),
            Status::DamagedJournal => Some("cluster: damaged journal"),
            Status::OutOfMemory => Some("cluster: out of memory"),
            Status::AcceptFailed => Some("cluster: accept failed"),
            Status::BadInput => Some("cluster: bad input"),
            Status::InputTooLong => Some("cluster: input too long"),
        }
    }
}
