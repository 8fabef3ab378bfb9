ghost use Rattle.std.specs.Prelude.{◌≡◌};
ghost use Rattle.hc_run.specs.Exit.{number_of};

use hc_tree::Refusal;

/// A file of a job.
#[derive(Clone, Copy, Debug, PartialEq, Eq)]
pub enum Role {
    Source,
}

/// How a job ended. The number of a status is the program's exit status.
#[derive(Debug, Drop)]
pub enum Status {
    /// The job was done (0).
    Done,
    /// The source breaks a rule; this one comes first (1).
    Refused(Refusal),
    /// The words have no job (2).
    Usage,
    /// A file couldn't be read (3).
    ReadFault(Role),
    /// An output couldn't be written (4).
    WriteFault,
    /// There wasn't enough memory (5).
    NoMemory,
    /// A file is over its limit (8).
    Longer(Role),
}

impl Status {
    /// The number of the status.
    pub fn number(&self) -> u8
        ensures { result ≡ number_of self.now }
    {
        match self {
            Status::Done => 0,
            Status::Refused(_) => 1,
            Status::Usage => 2,
            Status::ReadFault(_) => 3,
            Status::WriteFault => 4,
            Status::NoMemory => 5,
            Status::Longer(_) => 8,
        }
    }
}
