ghost use Rattle.std.specs.Prelude.{◌≡◌};
ghost use Rattle.outside.specs.Cause.{HasCause, StandsUnless};

use crate::sink::{OutFault, Sink};
use std::io::ErrorKind;
use std::{io, str};

#[derive(Clone, Copy, Debug, PartialEq, Eq)]
enum Stream {
    Out,
    Err,
}

/// A standard stream of the process. It tells no bytes. Own.
#[derive(Drop)]
pub struct StdSink<'a, R> {
    runtime: &'a R,
    stream: Stream,
    faults: u64,
}

impl<'a, R: Print + Eprint> StdSink<'a, R> {
    ghost use Rattle.outside.specs.StdSink.{failed_writes};

    /// The standard output, with no fault so far.
    pub fn out(runtime: &'a R) -> StdSink<'a, R>
        ensures { failed_writes result ≡ 0 }
    {
        StdSink {
            runtime,
            stream: Stream::Out,
            faults: 0,
        }
    }

    /// The standard error, with no fault so far. It takes text alone: bytes that aren't UTF-8 are a failure.
    pub fn err(runtime: &'a R) -> StdSink<'a, R>
        ensures { failed_writes result ≡ 0 }
    {
        StdSink {
            runtime,
            stream: Stream::Err,
            faults: 0,
        }
    }

    fn put(&self, bytes: &[u8]) -> io::Result<()> {
        match self.stream {
            Stream::Out => self.runtime.write_all(bytes),
            Stream::Err => match str::from_utf8(bytes) {
                Ok(text) => self.runtime.eprint(text),
                Err(_) => Err(io::Error::from(ErrorKind::InvalidData)),
            },
        }
    }

    /// What a stream answers to this error, which it counts where it is a failure.
    fn fault_of(&mut self, kind: ErrorKind) -> OutFault
        ensures cause { HasCause (failed_writes self.old) (failed_writes self.new) (result ≡ OutFault.Failed) }
        ensures stands { StandsUnless (result ≡ OutFault.Failed) (failed_writes self.old) (failed_writes self.new) }
    {
        if kind == ErrorKind::OutOfMemory {
            return OutFault::Memory;
        }
        self.faults = self.faults.saturating_add(1);
        OutFault::Failed
    }
}

impl<'a, R: Print + Eprint> Sink for StdSink<'a, R> {
    ghost use Rattle.std.specs.Prelude.{None};
    ghost use Rattle.outside.specs.StdSink.{failed_writes};

    ghost taken = { λ _. None };

    ghost faults = { failed_writes };

    fn write(&mut self, bytes: &[u8]) -> Result<(), OutFault> {
        match self.put(bytes) {
            Ok(()) => Ok(()),
            Err(error) => Err(self.fault_of(error.kind())),
        }
    }
}
