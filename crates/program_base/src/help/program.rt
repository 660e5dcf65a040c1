//! What is written, and the status.
ghost use Rattle.std.specs.Prelude.{◌≡◌, ◌⊎◌, ◌++◌, ◌∷◌, [], IfOk, true};
ghost use Rattle.std.specs.Io.KnownBytes.{Appends};
ghost use Rattle.program_base.specs.Texts.{help_text};

use crate::help::texts::help_text;
use crate::help::topic::Topic;
use crate::runs::{CANNOT_WRITE, Stop, end};
use std::fmt;
use std::io::Write;

/// A write failed.
#[derive(Clone, Copy)]
struct NotWritten;

impl fmt::Display for NotWritten {
    ghost use Rattle.std.specs.Prelude.{Some};
    ghost use Rattle.program_base.specs.Failure.{cannot_write_text};

    ghost output = { λ _. Some cannot_write_text };

    fn fmt<W: fmt::Write>(&self, f: &mut fmt::Formatter<W>) -> fmt::Result {
        write!(f, "{CANNOT_WRITE}")
    }
}

/// Writes the help for a topic, and answers that all went well.
fn write_help<W: Write>(topic: Topic, out: &mut W) -> Result<bool, Stop<NotWritten>>
    ensures good { IfOk result (λ good. good ≡ true) }
    ensures said { IfOk result (λ _. Appends (W.contents out.old) (W.contents out.new)
        (help_text topic ++ 10 ∷ [])) }
{
    let text = help_text(topic);
    match writeln!(out, "{text}") {
        Ok(()) => Ok(true),
        Err(_) => Err(Stop::Failed(NotWritten)),
    }
}

/// Writes the help for a topic, and answers the status that the program ends with: 0 where all of it was written, and
/// then nothing was written to `err`.
///
/// # Errors
/// The status is 2, and a text goes to `err`, where a write or the flush of `out` failed. A failed write to `err`
/// changes nothing.
///
/// ```
/// start(Topic::Version, &mut out, &mut err);   // 0, and out has a line with the name and the version
/// ```
pub fn start<W: Write, E: Write>(topic: Topic, out: &mut W, err: &mut E) -> u8
    ensures status { (result ≡ 0) ⊎ (result ≡ 2) }
    ensures said { result ≡ 0 → Appends (W.contents out.old) (W.contents out.new)
        (help_text topic ++ 10 ∷ []) }
    ensures quiet { result ≡ 0 → E.contents err.new ≡ E.contents err.old }
{
    end(write_help(topic, out), out, err)
}
