//! The last line of a command, and its status.

ghost use Rattle.conclave_top.specs.Finish.{IsFinished, IsTold};
ghost use Rattle.conclave_top.specs.Lines.{usage_line};
ghost use Rattle.conclave_top.specs.Outside.{stream_at};

use crate::end::{Cause, End};
use outside::{OutFault, Sink};

/// The commands of the program, as they are told to a faulty command line.
const USAGE: &str =
    "usage: conclave plan Q, plain Q, tape Q SEED T, run Q T [TURNS], audit Q PARTY A B T, replay Q PARTY T V, party Q PARTY T [PORT], make N\n";

/// Writes the line of an end, if it has one, and gives its status.
pub(crate) fn finish<E: Sink>(end: &End, err: &mut E) -> u8
    ensures { IsFinished end.now (stream_at E.Sink err.old) (stream_at E.Sink err.new) result }
{
    match end {
        End::Done => 0,
        End::Stopped(cause, line) => tell(line, cause.status(), err),
        End::Outside => tell(b"outside fault\n", 8, err),
        End::Memory => tell(b"out of memory\n", 9, err),
    }
}

/// Tells how the program is called, to words that are no command.
pub(crate) fn usage<E: Sink>(err: &mut E) -> u8
    ensures { IsTold usage_line 1 (stream_at E.Sink err.old) (stream_at E.Sink err.new) result }
{
    tell(USAGE.as_bytes(), Cause::Usage.status(), err)
}

/// Writes a line and gives its status; where that finds no memory, the status is 9.
fn tell<E: Sink>(line: &[u8], status: u8, err: &mut E) -> u8
    ensures { IsTold line.now status (stream_at E.Sink err.old) (stream_at E.Sink err.new) result }
{
    match err.write(line) {
        Err(OutFault::Memory) => 9,
        _ => status,
    }
}
