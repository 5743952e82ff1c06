//! The statuses of the program.
ghost use Rattle.std.specs.Prelude.{◌≡◌};
ghost use Rattle.gcs_workers.specs.Status.{end_status, session_status, status_number};

use crate::serving::ServeEnd;
use gcs_session::SessionEnd;

/// How the program ends.
#[derive(Clone, Copy, Debug, PartialEq, Eq)]
pub enum Status {
    /// The connection ended or was closed, or no further connection comes.
    Done,
    /// The words are refused, and the line that says so was written.
    Refused,
    /// A read of the only connection failed.
    ReadFault,
    /// A write of the only connection failed, or one of a line on the error output.
    WriteFault,
    /// There was no memory to begin with.
    NoMemory,
    /// The input of the only connection ended in a message.
    Cut,
    /// The address can't be bound, or the listener failed.
    ListenFault,
}

impl Status {
    /// The exit status: 0 done, 2 words refused, 3 a read failed, 4 a write failed, 5 no memory, 6 cut, 7 no listener.
    pub fn number(self) -> u8
        ensures { result ≡ status_number self }
    {
        match self {
            Status::Done => 0,
            Status::Refused => 2,
            Status::ReadFault => 3,
            Status::WriteFault => 4,
            Status::NoMemory => 5,
            Status::Cut => 6,
            Status::ListenFault => 7,
        }
    }
}

/// The status of a run of connections that ended so.
pub fn status_of_end(end: ServeEnd) -> Status
    ensures { result ≡ end_status end }
{
    match end {
        ServeEnd::Ended => Status::Done,
        ServeEnd::ListenFault => Status::ListenFault,
    }
}

/// The status of a run of one connection that ended so.
pub fn status_of_session(end: SessionEnd) -> Status
    ensures { result ≡ session_status end }
{
    match end {
        SessionEnd::Ended | SessionEnd::Closed => Status::Done,
        SessionEnd::Cut => Status::Cut,
        SessionEnd::ReadFault => Status::ReadFault,
        SessionEnd::WriteFault => Status::WriteFault,
        SessionEnd::NoMemory => Status::NoMemory,
    }
}
