// The program `las`: it hands its words and the standard streams to the top call.
#![tactic(auto)]

use las_io::{DirShelf, StdSink, StdSource, Stream};
use las_top::{Status, run_las};
use std::env;
use std::io::ErrorKind;
use std::process::ExitCode;

fn main(rt: HostRuntime) -> ExitCode {
    let alloc = rt.alloc();
    let words = match env::args(&rt) {
        Ok(all) => all.skip(1).collect::<Vec<String>>(alloc),
        Err(error) if error.kind() == ErrorKind::OutOfMemory => {
            return ExitCode::from(Status::Memory.number());
        }
        Err(_) => Ok(Vec::new(alloc)),
    };
    let Ok(words) = words else {
        return ExitCode::from(Status::Memory.number());
    };
    let mut src = StdSource::new(rt.stdin());
    let mut out = StdSink::new(rt.stdout(), rt.stderr(), Stream::Out);
    let mut err = StdSink::new(rt.stdout(), rt.stderr(), Stream::Err);
    let Ok(mut shelf) = DirShelf::new(alloc, &rt, ".") else {
        return ExitCode::from(Status::Memory.number());
    };
    let status = run_las(alloc, &words, &mut src, &mut out, &mut err, &mut shelf);
    ExitCode::from(status.number())
}
