ghost use Rattle.std.specs.Prelude.{◌≡◌};
ghost use Rattle.dpe_top.specs.declared.status.Failure.TheVariants.{NoMemory};
ghost use Rattle.dpe_top.specs.Reply.{IsWhole, status_of};
ghost use Rattle.dpe_top.specs.Statuses.{number_of};

use std::alloc::AllocError;

/// How a run ends. Its number is the program's exit status.
#[derive(Clone, Copy, Debug, PartialEq, Eq)]
pub enum Status {
    /// The whole answer is written, and no query is refused.
    Done = 0,
    /// The whole answer is written, and some query in it is refused.
    SomeRefused = 1,
    /// The arguments are invalid: the usage line is written, and the source was not read.
    Usage = 2,
    /// The bytes can't be read in this mode: the line that says why is written.
    Input = 3,
    /// The source failed: nothing is written.
    ReadFault = 4,
    /// The sink failed: less than the whole answer is written.
    WriteFault = 5,
    /// Memory ran out: nothing is written.
    NoMemory = 6,
}

impl Status {
    /// The number of the status: the exit status of the program.
    pub fn number(self) -> u8
        ensures { result ≡ number_of self }
    {
        self as u8
    }
}

/// How a run ends once its answer, which is made whole beforehand, is written.
#[derive(Clone, Copy, Debug, PartialEq, Eq)]
pub enum Outcome {
    /// No query is refused.
    Done,
    /// Some query is refused.
    SomeRefused,
    /// The arguments are invalid.
    Usage,
    /// The bytes can't be read in this mode.
    Input,
}

impl Outcome {
    /// The status of a run that has written its whole answer.
    pub fn status(self) -> Status
        ensures value { result ≡ status_of self }
        ensures whole { IsWhole result }
    {
        match self {
            Outcome::Done => Status::Done,
            Outcome::SomeRefused => Status::SomeRefused,
            Outcome::Usage => Status::Usage,
            Outcome::Input => Status::Input,
        }
    }
}

/// Why no answer was made.
#[derive(Clone, Copy, Debug, PartialEq, Eq)]
pub enum Failure {
    /// The source failed.
    ReadFault,
    /// Memory ran out.
    NoMemory,
}

impl From<AllocError> for Failure {
    ghost from_gives = { λ _ e. e ≡ NoMemory };

    fn from(_: AllocError) -> Self {
        Failure::NoMemory
    }
}
