//! The program without its process: the answers to an input, and the file, the statuses and the texts around them.
ghost use Rattle.std.specs.Prelude.{◌≡◌, ◌≢◌, ◌≤◌, ◌↔◌, ℕ, List, length, nat_eq, IfOk, IsErr, IsErrOf, IsOkAnd};
ghost use Rattle.program_base.specs.SessionFailure.{failure_text};
ghost use Rattle.program_base.specs.Lines.{command_lines};
ghost use Rattle.program_base.specs.Session.{State, Wrote, WroteAnswer};

use crate::session::lines::CommandLines;
use crate::session::session::Session;
use std::alloc::Global;
use std::io::Write;
use std::rt::Files;
use std::{fs, io};

/// What is written where the file, or the arguments before it, can't be read.
pub const CANNOT_READ: &str = "bitm_vectors: cannot read the file";

/// What is written where an answer can't be written.
const CANNOT_WRITE: &str = "bitm_vectors: cannot write";

/// What is written where there is not exactly one argument.
const USAGE: &str = "usage: bitm_vectors FILE";

/// Why a file was not answered.
#[derive(Clone, Copy, Debug, PartialEq, Eq)]
enum Failure {
    /// The file can't be read whole.
    CannotRead,
    /// An answer can't be written, or not flushed.
    CannotWrite,
}

impl Failure {
    /// The text that says why.
    fn text(&self) -> &'static str
        ensures { result.now ≡ failure_text self.now }
    {
        match self {
            Failure::CannotRead => CANNOT_READ,
            Failure::CannotWrite => CANNOT_WRITE,
        }
    }
}

/// A write failed.
#[derive(Clone, Copy, Debug, PartialEq, Eq)]
pub struct WriteFailed;

impl From<io::Error> for WriteFailed {
    fn from(_error: io::Error) -> WriteFailed {
        WriteFailed
    }
}

/// Writes the answers to the lines of `input`, in their order and each with a line feed, and
/// answers whether no answer was `bad command`.
///
/// A session begins with an empty vector and nothing built. Lines end with a line feed, a last one
/// may lack it, and empty lines have no answer.
///
/// # Errors
/// `WriteFailed` where a write to `out` failed; what was written before stays.
pub fn run<W: Write>(alloc: Global, input: &[u8], out: &mut W) -> Result<bool, WriteFailed>
    ensures { IfOk result (λ good. (end : State)
        × Wrote (command_lines input.now) end (W.contents out.old) (W.contents out.new) good) }
{
    let mut session = Session::new(alloc);
    let mut good = true;
    for line in CommandLines::new(input) {
        good &= answer_line(&mut session, alloc, line, out)?;
    }
    Ok(good)
}

/// Writes the answer to a line with a line feed, and answers whether it is not `bad command`.
fn answer_line<W: Write>(
    session: &mut Session,
    alloc: Global,
    line: &[u8],
    out: &mut W,
) -> Result<bool, WriteFailed>
    ensures { IfOk result (WroteAnswer line.now session.old session.new
        (W.contents out.old) (W.contents out.new)) }
{
    let answer = session.answer(alloc, line);
    writeln!(out, "{answer}")?;
    Ok(answer.is_good())
}

/// Answers the lines of the file that the one argument names, and answers the status that the
/// program ends with.
///
/// `args` are the arguments without the program's name. The status is 0 where no line was a bad
/// command and 1 where one was; then `out` got the answers, and nothing was written to `err`.
///
/// # Errors
/// The status is 2, and a text goes to `err`, where there is not exactly one argument, where the
/// file can't be read whole or its bytes find no memory, and where a write to `out` or its flush
/// failed. A failed write to `err` changes nothing.
pub fn start<R: Files + AllocGlobal, W: Write, E: Write>(
    rt: &R,
    args: &[String],
    out: &mut W,
    err: &mut E,
) -> u8
    ensures status { result ≤ 2 }
    ensures usage { length args.now ≢ 1
        → (result ≡ 2) × (W.contents out.new ≡ W.contents out.old) }
    ensures answered { result ≤ 1 → (input : List ℕ) × (end : State)
        × Wrote (command_lines input) end (W.contents out.old) (W.contents out.new) (nat_eq result 0) }
    ensures quiet { result ≤ 1 → E.contents err.new ≡ E.contents err.old }
{
    let [path] = args else {
        return fail(err, USAGE);
    };
    match answer_read(rt.alloc(), fs::read(rt, path.as_str()), out) {
        Ok(true) => 0,
        Ok(false) => 1,
        Err(failure) => fail(err, failure.text()),
    }
}

/// Answers the lines of what was read, all of it, flushes that, and answers whether no line was a bad command.
///
/// # Errors
/// `CannotRead` exactly where nothing was read, and nothing is written then; `CannotWrite` where a write or the flush
/// failed.
fn answer_read<W: Write>(
    alloc: Global,
    read: io::Result<Vec<u8>>,
    out: &mut W,
) -> Result<bool, Failure>
    ensures answered { IfOk result (λ good. IsOkAnd read (λ input. (end : State)
        × Wrote (command_lines input.items) end (W.contents out.old) (W.contents out.new) good)) }
    ensures cannot_read { IsErrOf result Failure.CannotRead ↔ IsErr read }
    ensures nothing { IsErrOf result Failure.CannotRead → out.new ≡ out.old }
{
    let Ok(input) = read else {
        return Err(Failure::CannotRead);
    };
    let Ok(good) = run(alloc, input.as_slice(), out) else {
        return Err(Failure::CannotWrite);
    };
    if out.flush().is_err() {
        return Err(Failure::CannotWrite);
    }
    Ok(good)
}

/// Says why the program ends with status 2, as far as that can be written.
fn fail<E: Write>(err: &mut E, reason: &str) -> u8
    ensures { result ≡ 2 }
{
    let _ = writeln!(err, "{reason}");
    2
}
