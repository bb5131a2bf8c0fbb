//! Runs a script from standard input, and writes its answers to standard output, or the line for its fault to standard
//! error. With the words `demo N`, it makes a script of N lines, runs it, and writes a summary.
//!
//! usage: fixed_prog [demo N]
#![tactic(auto)]

mod adapters;
#[cfg(test)]
mod tests;

use adapters::{StdErrors, StdSink, StdSource};
use fixed_calc::{Status, calc_main};
use std::alloc::AllocError;
use std::process::ExitCode;
use std::{env, io};

/// Returns the words of the command line. If they are not text, it returns one empty word, which is not a form of the
/// command.
fn words(rt: &HostRuntime) -> Result<Vec<String>, AllocError> {
    let mut words = Vec::new(rt.alloc());
    match env::args(rt) {
        Ok(args) => {
            for word in args.skip(1) {
                words.push(word)?;
            }
        }
        Err(error) => {
            if error.kind() == io::ErrorKind::OutOfMemory {
                return Err(AllocError);
            }
            words.push(String::new(rt.alloc()))?;
        }
    }
    Ok(words)
}

fn main(rt: HostRuntime) -> ExitCode {
    let words = match words(&rt) {
        Ok(words) => words,
        Err(_) => return ExitCode::from(Status::Memory.code()),
    };
    let mut source = StdSource::new(rt.stdin());
    let mut sink = StdSink::new(rt.stdout());
    let mut errors = StdErrors::new(rt.stderr());
    let status = calc_main(rt.alloc(), &words, &mut source, &mut sink, &mut errors);
    ExitCode::from(status.code())
}
