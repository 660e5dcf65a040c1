//! Answers the commands of the file that its one argument names, line by line, over a vector of
//! bits.
#![tactic(auto)]

use program_base::session::{CANNOT_READ, start};
use std::env::Env;
use std::io::BufWriter;
use std::process::ExitCode;
use std::{env, io};

fn main(rt: HostRuntime) -> ExitCode {
    let Ok(args) = arguments(&rt) else {
        let _ = eprintln!(rt; "{}", CANNOT_READ);
        return ExitCode::from(2);
    };
    // Without memory for a buffer each answer is written by itself.
    let status = match BufWriter::new(rt.alloc(), rt.stdout()) {
        Ok(mut out) => start(&rt, args.as_slice(), &mut out, &mut rt.stderr()),
        Err(_) => start(&rt, args.as_slice(), &mut rt.stdout(), &mut rt.stderr()),
    };
    ExitCode::from(status)
}

/// The arguments without the name that the program is called by.
fn arguments(rt: &(impl Env + AllocGlobal)) -> io::Result<Vec<String>> {
    let args = env::args(rt)?;
    Ok(args.skip(1).collect(rt.alloc())?)
}
