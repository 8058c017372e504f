//! The program: the current folder, the standard streams, and the words of the command line, handed to the commands.
//!
//! Stands on `conclave_top` and `outside`, and has no logic of its own. A command line with a word that isn't UTF-8 is a
//! faulty one.
#![tactic(auto)]

use conclave_top::conclave;
use outside::{DiskFolder, Sink, StdSink};
use std::alloc::AllocError;
use std::env;
use std::io::ErrorKind;
use std::process::ExitCode;

fn main(rt: HostRuntime) -> ExitCode {
    let mut files = DiskFolder::new(&rt);
    let mut out = StdSink::out(&rt);
    let mut err = StdSink::err(&rt);
    let Ok(words) = words(&rt) else {
        let _ = err.write(b"out of memory\n");
        return ExitCode::from(9);
    };
    ExitCode::from(conclave(rt.alloc(), &words, &mut files, &mut out, &mut err))
}

/// The words behind the program's name; none where one of them isn't UTF-8, which is no listed form.
fn words(rt: &HostRuntime) -> Result<Vec<String>, AllocError> {
    let mut words = Vec::new(rt.alloc());
    match env::args(rt) {
        Ok(arguments) => {
            for word in arguments.skip(1) {
                words.push(word)?;
            }
            Ok(words)
        }
        Err(error) if error.kind() == ErrorKind::OutOfMemory => Err(AllocError),
        Err(_) => Ok(words),
    }
}
