//! The numbers of the lines of a text.
ghost use Rattle.std.specs.Prelude.{◌≡◌, ◌++◌, ◌∷◌, [], IfOk, IfSome, IsErrOf, SomeIff};
ghost use Rattle.program_base.specs.Text.{lines_of};
ghost use Rattle.program_files.specs.Finding.{IsStringFile, WroteFound, WroteNumber, WroteNumbers};
ghost use Rattle.hash_block.specs.StringsBlock.{strings_in, IsSoundBlock};
ghost use Rattle.hash_block.specs.StringsParts.{AreStrings};

use crate::blocks::words_of_bytes;
use crate::strings::failure::Failure;
use hash_block::strings::{Answer, StringsView, check, open};
use program_base::runs::{CannotWrite, Form, none_in};
use program_base::text::FilledLines;
use std::alloc::Global;
use std::io::Write;

/// Writes for each line of a text that is not empty the number that it has among the strings of a file, or `none` where
/// it is none of them (as JSON `null`), each as a line and in their order, and answers whether one of them has a
/// number.
///
/// `file` are the bytes that `build` wrote. The whole file is checked first, so that the numbers belong to its strings.
///
/// # Errors
/// `WrongBlock` only where the bytes are no block of strings, or are not as they were written, and nothing is written
/// then; `NoMemory` where memory was refused; `CannotWrite` where a write failed.
/// # Cost
/// The cost of `hash_block::strings::check`; then the cost of `StringsView::find` for each line (evident from the
/// code).
///
/// ```
/// find(alloc, file, b"bob\neve\n".as_slice(), Form::Text, &mut out);   // Ok(true): out has "0\nnone\n", say
/// ```
pub fn find<W: Write>(
    alloc: Global,
    file: &[u8],
    text: &[u8],
    form: Form,
    out: &mut W,
) -> Result<bool, Failure>
    ensures written { IfOk result (WroteFound form file.now text.now (W.contents out.old) (W.contents out.new)) }
    ensures wrong { IsErrOf result Failure.WrongBlock → ¬ (IsStringFile file.now) }
    ensures nothing { IsErrOf result Failure.WrongBlock → out.new ≡ out.old }
{
    let Some(words) = words_of_bytes(alloc, file)? else {
        return Err(Failure::WrongBlock);
    };
    match open_checked(words.as_slice()) {
        Some(strings) => Ok(write_numbers(&strings, text, form, out)?),
        None => Err(Failure::WrongBlock),
    }
}

/// The strings in a block that is as it was written.
fn open_checked(block: &[u64]) -> Option<StringsView<'_>>
    ensures opened { SomeIff result (IsSoundBlock block.now) (strings_in block.now) }
    ensures holds { IfSome result AreStrings }
{
    if !check(block) {
        return None;
    }
    open(block)
}

/// Writes the number of each line among strings, and answers whether one of them has a number.
fn write_numbers<W: Write>(
    strings: &StringsView<'_>,
    text: &[u8],
    form: Form,
    out: &mut W,
) -> Result<bool, CannotWrite>
    requires { AreStrings strings.now }
    ensures { IfOk result (WroteNumbers form strings.now (lines_of text.now)
        (W.contents out.old) (W.contents out.new)) }
{
    let mut found = false;
    for line in FilledLines::new(text) {
        found |= write_number(strings, line, form, out)?;
    }
    Ok(found)
}

/// Writes the number of a line among strings, and answers whether it has one.
fn write_number<W: Write>(
    strings: &StringsView<'_>,
    line: &[u8],
    form: Form,
    out: &mut W,
) -> Result<bool, CannotWrite>
    requires { AreStrings strings.now }
    ensures { IfOk result (WroteNumber form strings.now line.now (W.contents out.old) (W.contents out.new)) }
{
    match strings.find(line) {
        Answer::Found(number) => {
            writeln!(out, "{number}")?;
            Ok(true)
        }
        _ => {
            writeln!(out, "{}", none_in(form))?;
            Ok(false)
        }
    }
}
