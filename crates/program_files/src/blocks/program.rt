//! The program without its process: its arguments, the files and the input that it reads, and the statuses and texts.
ghost use Rattle.std.specs.Prelude.{◌≡◌, ◌<◌, ◌≤◌, IfOk, IsErr, None, length, map, nat_eq, string_bytes};
ghost use Rattle.program_files.specs.Command as command;
ghost use Rattle.program_files.specs.Program.{Did, DidAsAsked};

use crate::blocks::answering::query;
use crate::blocks::building::build;
use crate::blocks::command::{Command, command_in};
use crate::blocks::failure::Failure;
use crate::blocks::kind::Kind;
use program_base::runs::{Form, Sources, Stop, end};
use std::io::Write;

/// What is written where no command takes the arguments.
const USAGE: &str = "usage: bitm build KIND | bitm query [--json] BLOCK | bitm check BLOCK | \
    bitm info BLOCK
KIND is bits, sequence, sparse, matrix or tree; bitm text and bitm strings say what they do with a text";

/// Does what the arguments say, and answers the status that the program ends with.
///
/// `args` are the arguments without the program's name: `build KIND` reads numbers, and `query BLOCK` questions, from
/// the standard input; `query --json BLOCK` writes the answers as JSON. The status is 0 where all went well, and 1
/// where a line is no question; then the command was done on the file that is named, and nothing was written to `err`.
///
/// # Errors
/// The status is 2, and a text goes to `err`, where the arguments are no command, where something can't be read, where
/// there is no answer (`Failure`), and where a flush of `out` failed. A failed write to `err` changes nothing.
pub fn start<R: Sources + AllocGlobal, W: Write, E: Write>(
    rt: &R,
    args: &[String],
    out: &mut W,
    err: &mut E,
) -> u8
    ensures status { result ≤ 2 }
    ensures few { length args.now < 2 → (result ≡ 2) × (W.contents out.new ≡ W.contents out.old) }
    ensures many { 3 < length args.now → (result ≡ 2) × (W.contents out.new ≡ W.contents out.old) }
    ensures unknown { command.command_in (map string_bytes args.now) ≡ None
        → (result ≡ 2) × (W.contents out.new ≡ W.contents out.old) }
    ensures did { result ≤ 1 → DidAsAsked (R.known rt.now) (map string_bytes args.now)
        (W.contents out.old) (W.contents out.new) (nat_eq result 0) }
    ensures quiet { result ≤ 1 → E.contents err.new ≡ E.contents err.old }
{
    end(run(rt, args, out), out, err)
}

/// Does what the arguments say, and answers whether all went well.
fn run<R: Sources + AllocGlobal, W: Write>(
    rt: &R,
    args: &[String],
    out: &mut W,
) -> Result<bool, Stop<Failure>>
    ensures few { length args.now < 2 → IsErr result × (out.new ≡ out.old) }
    ensures many { 3 < length args.now → IsErr result × (out.new ≡ out.old) }
    ensures unknown { command.command_in (map string_bytes args.now) ≡ None → IsErr result × (out.new ≡ out.old) }
    ensures did { IfOk result (DidAsAsked (R.known rt.now) (map string_bytes args.now)
        (W.contents out.old) (W.contents out.new)) }
{
    match command_in(args) {
        Some((command, operand)) => perform(rt, command, operand, out),
        None => Err(Stop::Usage(USAGE)),
    }
}

/// Does a command on its operand, and answers whether all went well.
fn perform<R: Sources + AllocGlobal, W: Write>(
    rt: &R,
    command: Command,
    operand: &str,
    out: &mut W,
) -> Result<bool, Stop<Failure>>
    ensures { IfOk result (Did (R.known rt.now) command operand.now (W.contents out.old) (W.contents out.new)) }
{
    match command {
        Command::Build(kind) => build_input(rt, kind, operand, out),
        Command::Query(form) => query_file(rt, form, operand, out),
    }
}

/// Writes the block of a kind of the numbers in the standard input.
fn build_input<R: Sources + AllocGlobal, W: Write>(
    rt: &R,
    kind: Kind,
    _operand: &str,
    out: &mut W,
) -> Result<bool, Stop<Failure>>
    ensures { IfOk result (Did (R.known rt.now) (Command.Build kind) _operand.now
        (W.contents out.old) (W.contents out.new)) }
{
    build(rt.alloc(), kind, rt.input()?.as_slice(), out)?;
    Ok(true)
}

/// Writes what the block in a file answers to the lines of the standard input.
fn query_file<R: Sources + AllocGlobal, W: Write>(
    rt: &R,
    form: Form,
    path: &str,
    out: &mut W,
) -> Result<bool, Stop<Failure>>
    ensures { IfOk result (Did (R.known rt.now) (Command.Query form) path.now
        (W.contents out.old) (W.contents out.new)) }
{
    let block = rt.file(path)?;
    let questions = rt.input()?;
    Ok(query(
        rt.alloc(),
        block.as_slice(),
        questions.as_slice(),
        form,
        out,
    )?)
}
