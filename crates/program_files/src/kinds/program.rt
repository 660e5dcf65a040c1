//! The program without its process: its arguments, the file that it reads, and the statuses and texts.
ghost use Rattle.std.specs.Prelude.{◌≡◌, ◌≤◌, ◌++◌, ◌∷◌, [], IfOk, IsErr, None, OnOk, map, nat_eq, string_bytes};
ghost use Rattle.std.specs.Io.KnownBytes.{Appends};
ghost use Rattle.program_files.specs.Format.{format_in};
ghost use Rattle.program_files.specs.KindsCommand.{command_in};
ghost use Rattle.program_files.specs.KindsProgram.{verdict_text, Did, DidAsAsked, WroteCheck};

use crate::blocks::{Failure, Format, format_in};
use crate::kinds::checking::{check, check_old};
use crate::kinds::command::{Command, command_in};
use crate::kinds::describing::info;
use program_base::runs::{CannotWrite, Form, Sources, Stop, end};
use std::alloc::Global;
use std::io::Write;

/// What is written where no command takes the arguments.
const USAGE: &str = "usage: bitm check [--json] BLOCK | bitm info [--json] BLOCK";

/// The text for a file of version 2 that is right.
const OLD_IS_GOOD: &str =
    "good: the parts fit each other (version 2, which has no checksum of them)";

/// Does what the arguments say, and answers the status that the program ends with.
///
/// `args` are the arguments without the program's name: `check BLOCK` and `info BLOCK` read the file alone; with
/// `--json` before it they write JSON. The status is 0 where all went well, and 1 where `check` wrote `wrong` or
/// `false`; then the command was done on the file that is named, and nothing was written to `err`.
///
/// # Errors
/// The status is 2, and a text goes to `err`, where the arguments are no command, where the file can't be read, where
/// there is no answer (`Failure`), and where a flush of `out` failed. A failed write to `err` changes nothing.
///
/// ```
/// start(&rt, &[check, path], &mut out, &mut err);   // 0, and out has "good\n"
/// ```
pub fn start<R: Sources + AllocGlobal, W: Write, E: Write>(
    rt: &R,
    args: &[String],
    out: &mut W,
    err: &mut E,
) -> u8
    ensures status { result ≤ 2 }
    ensures unknown { command_in (map string_bytes args.now) ≡ None
        → (result ≡ 2) × (W.contents out.new ≡ W.contents out.old) }
    ensures did { result ≤ 1 → DidAsAsked (R.known rt.now) (map string_bytes args.now)
        (W.contents out.old) (W.contents out.new) (nat_eq result 0) }
    ensures quiet { result ≤ 1 → E.contents err.new ≡ E.contents err.old }
{
    end(run(rt, args, out), out, err)
}

/// Does what the arguments say, and answers whether all went well.
fn run<R: Sources + AllocGlobal, W: Write>(
    rt: &R,
    args: &[String],
    out: &mut W,
) -> Result<bool, Stop<Failure>>
    ensures unknown { command_in (map string_bytes args.now) ≡ None → IsErr result × (out.new ≡ out.old) }
    ensures did { IfOk result (DidAsAsked (R.known rt.now) (map string_bytes args.now)
        (W.contents out.old) (W.contents out.new)) }
{
    match command_in(args) {
        Some((command, path)) => perform(rt, command, path, out),
        None => Err(Stop::Usage(USAGE)),
    }
}

/// Does a command on its file, and answers whether all went well.
fn perform<R: Sources + AllocGlobal, W: Write>(
    rt: &R,
    command: Command,
    path: &str,
    out: &mut W,
) -> Result<bool, Stop<Failure>>
    ensures { IfOk result (Did (R.known rt.now) command path.now (W.contents out.old) (W.contents out.new)) }
{
    match command {
        Command::Check(form) => check_file(rt, form, path, out),
        Command::Info(form) => info_file(rt, form, path, out),
    }
}

/// Writes whether a file is a block that is as it was written, or one of version 2 whose parts fit each other.
fn check_file<R: Sources + AllocGlobal, W: Write>(
    rt: &R,
    form: Form,
    path: &str,
    out: &mut W,
) -> Result<bool, Stop<Failure>>
    ensures { IfOk result (Did (R.known rt.now) (Command.Check form) path.now
        (W.contents out.old) (W.contents out.new)) }
{
    Ok(write_check(rt.alloc(), rt.file(path)?.as_slice(), form, out)?)
}

/// Writes what the header of the block in a file says.
fn info_file<R: Sources + AllocGlobal, W: Write>(
    rt: &R,
    form: Form,
    path: &str,
    out: &mut W,
) -> Result<bool, Stop<Failure>>
    ensures { IfOk result (Did (R.known rt.now) (Command.Info form) path.now
        (W.contents out.old) (W.contents out.new)) }
{
    info(rt.alloc(), rt.file(path)?.as_slice(), form, out)?;
    Ok(true)
}

/// Writes whether the bytes are a block that is as it was written, or a file of version 2 whose parts fit each other,
/// and answers that.
#[tactic(auto, using(crate::proofs::lemmas::KindsFormatLemmas::right_of_old, crate::proofs::lemmas::KindsFormatLemmas::right_of_others))]
fn write_check<W: Write>(
    alloc: Global,
    block: &[u8],
    form: Form,
    out: &mut W,
) -> Result<bool, Failure>
    ensures { IfOk result (λ good. WroteCheck form block.now (W.contents out.old) (W.contents out.new) good) }
{
    let format = format_in(block);
    let good = match format {
        Ok(Format::Old) => check_old(alloc, block)?,
        _ => check(alloc, block)?,
    };
    write_verdict(form, format, good, out)?;
    Ok(good)
}

/// Writes whether a file of a format is right.
fn write_verdict<W: Write>(
    form: Form,
    format: Result<Format, Failure>,
    good: bool,
    out: &mut W,
) -> Result<(), CannotWrite>
    ensures { OnOk result (Appends (W.contents out.old) (W.contents out.new) (verdict_text form format good)) }
{
    let text = match form {
        Form::Text => verdict(format, good),
        Form::Json => if good { "true" } else { "false" },
    };
    writeln!(out, "{text}")?;
    Ok(())
}

/// Whether a file of a format is right, in words.
fn verdict(format: Result<Format, Failure>, good: bool) -> &'static str
    ensures { result.now ++ 10 ∷ [] ≡ verdict_text Form.Text format good }
{
    match (format, good) {
        (Ok(Format::Old), true) => OLD_IS_GOOD,
        (_, true) => "good",
        (_, false) => "wrong",
    }
}
