//! Ends of a command.

ghost use Rattle.std.specs.Prelude.{◌≡◌};
ghost use Rattle.conclave_top.specs.Due.{status_of};
ghost use Rattle.conclave_top.specs.End.{end_of};

use std::alloc::{AllocError, AllocFailed};

/// Why a command has no result.
#[derive(Clone, Copy, Debug, PartialEq, Eq)]
pub(crate) enum Cause {
    /// The words are no command.
    Usage,
    /// The query is refused.
    Refused,
    /// A relation's file is no table of its declaration.
    Faulty,
    /// A tape's file isn't what the plan needs.
    Unfit,
    /// Two worlds differ in what a party may know.
    Disagree,
}

impl Cause {
    /// The status that tells it.
    pub(crate) fn status(self) -> u8
        ensures { result ≡ status_of self }
    {
        match self {
            Cause::Usage => 1,
            Cause::Refused => 2,
            Cause::Faulty => 3,
            Cause::Unfit => 4,
            Cause::Disagree => 6,
        }
    }
}

/// How a command ends.
#[derive(Debug, Drop)]
pub(crate) enum End {
    /// All that is due is done.
    Done,
    /// There is no result, and this line tells the cause.
    Stopped(Cause, Vec<u8>),
    /// The folder or the output failed.
    Outside,
    /// No memory was left.
    Memory,
}

/// Why a stage gives nothing.
#[derive(Debug, Drop)]
pub(crate) enum Stop {
    /// What is wrong is told by this line.
    Line(Vec<u8>),
    /// No memory was left.
    Memory,
}

impl Stop {
    /// The end of the command, where this is the cause.
    pub(crate) fn end(self, cause: Cause) -> End
        ensures { result ≡ end_of cause self }
    {
        match self {
            Stop::Line(line) => End::Stopped(cause, line),
            Stop::Memory => End::Memory,
        }
    }
}

impl From<AllocError> for Stop {
    ghost use Rattle.std.specs.Prelude.{◌≡◌};
    ghost use Rattle.conclave_top.specs.declared.end.Stop.TheVariants.{Memory};

    ghost from_gives = { λ _ stop. stop ≡ Memory };

    fn from(_error: AllocError) -> Stop {
        Stop::Memory
    }
}

impl<T: Drop> From<AllocFailed<T>> for Stop {
    ghost use Rattle.std.specs.Prelude.{◌≡◌};
    ghost use Rattle.conclave_top.specs.declared.end.Stop.TheVariants.{Memory};

    ghost from_gives = { λ _ stop. stop ≡ Memory };

    fn from(_error: AllocFailed<T>) -> Stop {
        Stop::Memory
    }
}
