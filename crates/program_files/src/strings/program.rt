//! The program without its process: its arguments, the file and the input that it reads, and the statuses and texts.
ghost use Rattle.std.specs.Prelude.{◌≡◌, ◌≤◌, IfOk, IsErr, None, map, nat_eq, string_bytes};
ghost use Rattle.program_files.specs.StringsCommand.{command_in};
ghost use Rattle.program_files.specs.StringsProgram.{Did, DidAsAsked};

use crate::strings::building::build;
use crate::strings::command::{Command, command_in};
use crate::strings::failure::Failure;
use crate::strings::finding::find;
use program_base::runs::{Form, Sources, Stop, end};
use std::io::Write;

/// What is written where no command takes the arguments.
const USAGE: &str = "usage: bitm strings build | bitm strings find [--json] BLOCK";

/// Does what the arguments after `strings` say, and answers the status that the program ends with: 0 where that was
/// done, on the file that is named, and 1 where it was done and no line has a number; then nothing was written to
/// `err`.
///
/// `build` reads lines from the standard input, and so does `find BLOCK`, which reads the file too; `find --json BLOCK`
/// writes JSON.
///
/// # Errors
/// The status is 2, and a text goes to `err`, where the arguments are no command, where something can't be read, where
/// there is no answer (`Failure`), and where a flush of `out` failed. A failed write to `err` changes nothing.
pub fn start<R: Sources + AllocGlobal, W: Write, E: Write>(
    rt: &R,
    args: &[String],
    out: &mut W,
    err: &mut E,
) -> u8
    ensures status { result ≤ 2 }
    ensures unknown { command_in (map string_bytes args.now) ≡ None
        → (result ≡ 2) × (W.contents out.new ≡ W.contents out.old) }
    ensures did { result ≤ 1 → DidAsAsked (R.known rt.now) (map string_bytes args.now)
        (W.contents out.old) (W.contents out.new) (nat_eq result 0) }
    ensures quiet { result ≤ 1 → E.contents err.new ≡ E.contents err.old }
{
    end(run(rt, args, out), out, err)
}

/// Does what the arguments say, and answers whether something was found.
fn run<R: Sources + AllocGlobal, W: Write>(
    rt: &R,
    args: &[String],
    out: &mut W,
) -> Result<bool, Stop<Failure>>
    ensures unknown { command_in (map string_bytes args.now) ≡ None → IsErr result × (out.new ≡ out.old) }
    ensures did { IfOk result (DidAsAsked (R.known rt.now) (map string_bytes args.now)
        (W.contents out.old) (W.contents out.new)) }
{
    let Some((command, path)) = command_in(args) else {
        return Err(Stop::Usage(USAGE));
    };
    perform(rt, command, path, out)
}

/// Does a command with its file.
fn perform<R: Sources + AllocGlobal, W: Write>(
    rt: &R,
    command: Command,
    path: &str,
    out: &mut W,
) -> Result<bool, Stop<Failure>>
    ensures { IfOk result (Did (R.known rt.now) command path.now (W.contents out.old) (W.contents out.new)) }
{
    match command {
        Command::Build => build_input(rt, path, out),
        Command::Find(form) => find_input(rt, form, path, out),
    }
}

/// Writes the block of the lines of the standard input.
fn build_input<R: Sources + AllocGlobal, W: Write>(
    rt: &R,
    _path: &str,
    out: &mut W,
) -> Result<bool, Stop<Failure>>
    ensures { IfOk result (Did (R.known rt.now) Command.Build _path.now
        (W.contents out.old) (W.contents out.new)) }
{
    let text = rt.input()?;
    build(rt.alloc(), text.as_slice(), out)?;
    Ok(true)
}

/// Writes the numbers of the lines of the standard input among the strings of a file.
fn find_input<R: Sources + AllocGlobal, W: Write>(
    rt: &R,
    form: Form,
    path: &str,
    out: &mut W,
) -> Result<bool, Stop<Failure>>
    ensures { IfOk result (Did (R.known rt.now) (Command.Find form) path.now
        (W.contents out.old) (W.contents out.new)) }
{
    let file = rt.file(path)?;
    let text = rt.input()?;
    Ok(find(rt.alloc(), file.as_slice(), text.as_slice(), form, out)?)
}
