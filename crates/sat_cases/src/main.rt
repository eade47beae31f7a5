//! The program `sat_cases`: it reads a script of worked formulas from standard input, searches each, reads the
//! log of the search back through the checker, and prints what came of both. A line that is not understood ends it
//! with an error and that line's number. The head of the crate's `stdin` says what each line does.
#![tactic(auto)]

mod formulas;
mod logged;
mod script;

use anyhow::{Context, Result};
use script::Script;
use std::io::{BufRead, BufReader};

fn main(rt: HostRuntime) -> Result<()> {
    let alloc = rt.alloc();
    let mut script = Script::new(alloc);
    for (number, line) in BufReader::new(alloc, rt.reader())?.lines(alloc).enumerate() {
        let mut said = String::new(alloc);
        script
            .read_line(&line?, &mut said)
            .context(format_args!("line {}", number.saturating_add(1)))?;
        rt.print(said)?;
    }
    Ok(())
}
