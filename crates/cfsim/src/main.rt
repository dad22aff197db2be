//! A logic, timing and fault simulator for structural Verilog.
#![tactic(auto)]

mod files;
mod line_fault;
mod netlists;
mod refusal;
mod report;
mod respond;
mod run;
mod status;
mod words;

use outside_io::{FileShelf, OpenGate, StreamSink};
pub use run::run;
pub use status::Status;
use std::alloc::{AllocError, Global};
use std::process::ExitCode;
use std::{env, io};

/// The words behind the program's name. Words that aren't all text are no call, and read as none.
fn arguments(rt: &HostRuntime) -> Result<Vec<String>, AllocError> {
    let mut words = Vec::new(rt.alloc());
    match env::args(rt) {
        Ok(args) => {
            for word in args.skip(1) {
                words.push(word)?;
            }
        }
        Err(error) if error.kind() == io::ErrorKind::OutOfMemory => return Err(AllocError),
        Err(_) => {}
    }
    Ok(words)
}

fn main(rt: HostRuntime) -> ExitCode {
    let Ok(words) = arguments(&rt) else {
        let _ = eprintln!(rt; "cfsim: no memory");
        return ExitCode::from(7);
    };
    let mut shelf = FileShelf::new(&rt);
    let mut out = StreamSink::new(rt.stdout());
    let mut err = StreamSink::new(rt.stderr());
    let status = run(
        &rt,
        rt.alloc(),
        words.as_slice(),
        &mut shelf,
        &mut out,
        &mut err,
        &OpenGate,
    );
    ExitCode::from(status.code())
}

#[cfg(test)]
mod tests;
