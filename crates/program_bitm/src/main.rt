//! Builds blocks of the numbers in a text, the index of a text, and blocks of the lines of a text, checks them, and
//! answers questions to them (`docs/PROGRAM.md`).
#![tactic(auto)]

mod process;
mod progress;

use crate::process::Process;
use crate::progress::{Counted, Progress};
use program_base::help::topic_in;
use program_base::runs::CANNOT_READ;
use std::env::Env;
use std::io::{BufWriter, Write};
use std::process::ExitCode;
use std::{env, io};

fn main(rt: HostRuntime) -> ExitCode {
    let Ok(args) = arguments(&rt) else {
        let _ = eprintln!(rt; "{}", CANNOT_READ);
        return ExitCode::from(2);
    };
    let progress = Progress::new(&rt);
    let stdout = || Counted::new(progress, "written", rt.stdout());
    // Without memory for a buffer each word and each answer is written by itself.
    let status = match BufWriter::new(rt.alloc(), stdout()) {
        Ok(mut out) => run(&rt, progress, args.as_slice(), &mut out),
        Err(_) => run(&rt, progress, args.as_slice(), &mut stdout()),
    };
    ExitCode::from(status)
}

/// Writes the help that the arguments want, or does what they say: those after `text` to a text, those after
/// `strings` to strings, `check` and `info` to a block of any kind, and all others to the numbers of a text. Answers
/// the status.
fn run<W: Write>(rt: &HostRuntime, progress: Progress, args: &[String], out: &mut W) -> u8 {
    if let Some(topic) = topic_in(args) {
        return program_base::help::start(topic, out, &mut rt.stderr());
    }
    let (word, rest) = match args.split_first() {
        Some((word, rest)) => (word.as_str(), rest),
        None => ("", args),
    };
    let walks = word == "check" || word == "info";
    let process = Process {
        rt,
        progress,
        walks,
    };
    let err = &mut rt.stderr();
    if walks {
        program_files::kinds::start(&process, args, out, err)
    } else if word == "text" {
        program_files::texts::start(&process, rest, out, err)
    } else if word == "strings" {
        program_files::strings::start(&process, rest, out, err)
    } else {
        program_files::blocks::start(&process, args, out, err)
    }
}

/// The arguments without the name that the program is called by.
fn arguments(rt: &(impl Env + AllocGlobal)) -> io::Result<Vec<String>> {
    let args = env::args(rt)?;
    Ok(args.skip(1).collect(rt.alloc())?)
}
