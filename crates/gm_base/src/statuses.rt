//! How a run of the program ends.

ghost use Rattle.std.specs.Prelude.{◌≡◌};
ghost use Rattle.gm_base.specs.Statuses.{code_of};

/// How a run of the program ends.
#[derive(Clone, Copy, Debug, PartialEq, Eq, Hash)]
pub enum Status {
    /// The run ended.
    Done,
    /// The program breaks a rule.
    Refused,
    /// The words of the command line give no job.
    Usage,
    /// A graph, an image or an argument is faulty.
    BadInput,
    /// The procedure met a fault.
    Fault,
    /// The procedure needs more turns than it was given.
    Cut,
    /// A read failed, or a file is absent.
    ReadFault,
    /// A write failed.
    WriteFault,
    /// There was not enough memory.
    NoMemory,
}

impl Status {
    /// The exit status of the process, 0 to 8.
    pub fn code(self) -> u8
        ensures { result ≡ code_of self }
    {
        match self {
            Status::Done => 0,
            Status::Refused => 1,
            Status::Usage => 2,
            Status::BadInput => 3,
            Status::Fault => 4,
            Status::Cut => 5,
            Status::ReadFault => 6,
            Status::WriteFault => 7,
            Status::NoMemory => 8,
        }
    }
}
