//! The program without its process: its arguments, the files and the input that it reads, and the statuses and texts.
ghost use Rattle.std.specs.Prelude.{◌≡◌, ◌≤◌, IfOk, IsErr, None, map, nat_eq, string_bytes};
ghost use Rattle.program_files.specs.Answers.{WroteOfFile};
ghost use Rattle.program_files.specs.TextsCommand.{command_in};
ghost use Rattle.program_files.specs.TextsProgram.{Did, DidAsAsked, WroteOfList};
ghost use Rattle.program_base.specs.Known.{IsKnownAs};
ghost use Rattle.program_files.specs.TextsProgram.{known_list};

use crate::texts::answering::answer;
use crate::texts::building::build;
use crate::texts::command::{Asked, Command, Given, Options, command_in};
use crate::texts::failure::Failure;
use crate::texts::patterns::listed;
use program_base::runs::{CannotRead, Sources, Stop, end};
use std::io::Write;

/// What is written where no command takes the arguments.
const USAGE: &str = "usage: bitm text build | bitm text count PATTERN BLOCK | \
    bitm text locate PATTERN BLOCK | bitm text lines PATTERN BLOCK
before PATTERN may stand --no-check and --json; -f FILE instead of PATTERN takes the lines of a file as patterns";

/// Does what the arguments after `text` say, and answers the status that the program ends with: 0 where that was done,
/// on the file that is named, and 1 where it was done and no pattern was found; then nothing was written to `err`.
///
/// `build` reads the text from the standard input; `count PATTERN BLOCK`, `locate PATTERN BLOCK` and `lines PATTERN
/// BLOCK` read the file alone. The pattern's bytes are the argument's. With `-f FILE` in place of the pattern the lines
/// of that file are patterns, and with `-f -` the lines of the standard input. With `--no-check` before them the
/// checksums of the file are not looked at; `--json` there changes nothing, since a number is JSON.
///
/// # Errors
/// The status is 2, and a text goes to `err`, where the arguments are no command, where something can't be read, where
/// there is no answer (`Failure`), and where a flush of `out` failed. A failed write to `err` changes nothing.
pub fn start<R: Sources + AllocGlobal, W: Write, E: Write>(
    rt: &R,
    args: &[String],
    out: &mut W,
    err: &mut E,
) -> u8
    ensures status { result ≤ 2 }
    ensures unknown { command_in (map string_bytes args.now) ≡ None
        → (result ≡ 2) × (W.contents out.new ≡ W.contents out.old) }
    ensures did { result ≤ 1 → DidAsAsked (R.known rt.now) (map string_bytes args.now)
        (W.contents out.old) (W.contents out.new) (nat_eq result 0) }
    ensures quiet { result ≤ 1 → E.contents err.new ≡ E.contents err.old }
{
    end(run(rt, args, out), out, err)
}

/// Does what the arguments say, and answers whether something was found.
fn run<R: Sources + AllocGlobal, W: Write>(
    rt: &R,
    args: &[String],
    out: &mut W,
) -> Result<bool, Stop<Failure>>
    ensures unknown { command_in (map string_bytes args.now) ≡ None → IsErr result × (out.new ≡ out.old) }
    ensures did { IfOk result (DidAsAsked (R.known rt.now) (map string_bytes args.now)
        (W.contents out.old) (W.contents out.new)) }
{
    let Some((command, operand, path)) = command_in(args) else {
        return Err(Stop::Usage(USAGE));
    };
    perform(rt, command, operand, path, out)
}

/// Does a command with its operand and its file.
fn perform<R: Sources + AllocGlobal, W: Write>(
    rt: &R,
    command: Command,
    operand: &str,
    path: &str,
    out: &mut W,
) -> Result<bool, Stop<Failure>>
    ensures { IfOk result (Did (R.known rt.now) command operand.now path.now
        (W.contents out.old) (W.contents out.new)) }
{
    match command {
        Command::Build => build_input(rt, operand, path, out),
        Command::Ask(asked, options) => answer_file(rt, asked, options, operand, path, out),
    }
}

/// Writes the file of the text in the standard input.
fn build_input<R: Sources + AllocGlobal, W: Write>(
    rt: &R,
    _operand: &str,
    _path: &str,
    out: &mut W,
) -> Result<bool, Stop<Failure>>
    ensures { IfOk result (Did (R.known rt.now) Command.Build _operand.now _path.now
        (W.contents out.old) (W.contents out.new)) }
{
    let text = rt.input()?;
    build(rt.alloc(), text.as_slice(), out)?;
    Ok(true)
}

/// Writes the answers to a query of patterns in a file's text.
fn answer_file<R: Sources + AllocGlobal, W: Write>(
    rt: &R,
    asked: Asked,
    options: Options,
    operand: &str,
    path: &str,
    out: &mut W,
) -> Result<bool, Stop<Failure>>
    ensures { IfOk result (Did (R.known rt.now) (Command.Ask asked options) operand.now path.now
        (W.contents out.old) (W.contents out.new)) }
{
    let file = rt.file(path)?;
    match options.given {
        Given::Word => Ok(answer(
            rt.alloc(),
            asked,
            file.as_slice(),
            &[operand.as_bytes()],
            options.sums,
            out,
        )?),
        Given::Listed => answer_list(rt, asked, options.sums, file.as_slice(), operand, out),
    }
}

/// The bytes of a list of patterns.
fn list_at<R: Sources>(rt: &R, path: &str) -> Result<Vec<u8>, CannotRead>
    ensures { IfOk result (λ list. IsKnownAs (known_list (R.known rt.now) path.now) list.items) }
{
    if path == "-" {
        rt.input()
    } else {
        rt.file(path)
    }
}

/// Writes the answers to a query of a list of patterns in a file's text.
fn answer_list<R: Sources + AllocGlobal, W: Write>(
    rt: &R,
    asked: Asked,
    sums: bool,
    file: &[u8],
    path: &str,
    out: &mut W,
) -> Result<bool, Stop<Failure>>
    ensures { IfOk result (WroteOfList (R.known rt.now) asked sums file.now path.now
        (W.contents out.old) (W.contents out.new)) }
{
    let list = list_at(rt, path)?;
    let patterns = match listed(rt.alloc(), list.as_slice()) {
        Ok(patterns) => patterns,
        Err(_) => return Err(Stop::Failed(Failure::NoMemory)),
    };
    Ok(answer(rt.alloc(), asked, file, patterns.as_slice(), sums, out)?)
}
