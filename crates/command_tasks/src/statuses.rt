ghost use Rattle.std.specs.Prelude.{◌≡◌};
ghost use Rattle.command_tasks.specs.Statuses.{status_number};

/// What a command line is answered by, beside its text.
#[derive(Clone, Copy)]
pub enum Status {
    /// The command is done; of secrets, all are accepted or clean; of a bound, it is known; of a certificate, it is
    /// verified.
    Done,
    /// Some secret is rejected or unclear, a path of a bound is unclear, or the certificate is rejected.
    Rejected,
    /// The words are no command line.
    Usage,
    /// A program, a region file, a cut, a source or a certificate is malformed.
    Malformed,
    /// The run of a guest is not measured, or no declaration is learnt of it.
    RunRefused,
    /// A load failed.
    LoadFailed,
    /// A file has more bytes than its limit.
    TooLarge,
    /// The text could not be put.
    PutFailed,
    /// There was not enough memory.
    NoMemory,
}

impl Status {
    /// The number with which a process ends: 0 to 8, in the order above.
    pub fn number(self) -> u8
        ensures { result ≡ status_number self }
    {
        match self {
            Status::Done => 0,
            Status::Rejected => 1,
            Status::Usage => 2,
            Status::Malformed => 3,
            Status::RunRefused => 4,
            Status::LoadFailed => 5,
            Status::TooLarge => 6,
            Status::PutFailed => 7,
            Status::NoMemory => 8,
        }
    }
}
