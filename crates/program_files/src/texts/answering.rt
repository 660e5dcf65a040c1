//! What the text of a file answers of patterns: how often they stand there, where, and in which lines.
ghost use Rattle.std.specs.Prelude.{◌≡◌, IfOk, IsErrOf, List, OnOk, SomeIff, ℕ};
ghost use Rattle.std.specs.Io.KnownBytes.{Appends};
ghost use Rattle.std.specs.List.{flat_map};
ghost use Rattle.program_files.specs.Answers.{is_found, line_of, ArePatternAnswers, AreWithin};
ghost use Rattle.program_files.specs.Answers.{WroteCounts, WroteLines, WroteOfFile, WrotePositions};
ghost use Rattle.program_files.specs.File.{IsOpened, IsTextFile};
ghost use Rattle.program_files.specs.Lines.{bytes_in};
ghost use Rattle.text_block.specs.Block.{parts_in, HoldsIndex, bytes_of_parts};

use crate::blocks::words_of_bytes;
use crate::texts::all_positions::{all_positions, counts};
use crate::texts::command::Asked;
use crate::texts::failure::Failure;
use crate::texts::numbering::lines_with;
use bitm_block::is_verified;
use program_base::runs::CannotWrite;
use std::alloc::Global;
use std::io::Write;
use text_block::TextView;

/// Writes at how many positions of the text in a file each of the patterns stands, each number as a line, and answers
/// whether one of them stands somewhere. An empty pattern stands at each position, the end too.
///
/// `file` are the bytes that `build` wrote; `sums` says whether its checksums are looked at. Over the index of a text
/// the answer agrees with the text. Any other file that is as long as such a block, as one that was changed, is
/// answered within what there is: a count is at most one more than the letters, and a position at most their number.
///
/// # Errors
/// `WrongBlock` only where the bytes are no index of a text, or are not as they were written, and exactly then where
/// the checksums are looked at and are wrong; nothing is written then. `NoMemory` where memory was refused;
/// `CannotWrite` where a write failed.
/// # Cost
/// A copy of the file, with `sums` a pass over it, and two ranks for each byte of a pattern and each bit of a letter
/// (evident from the code).
///
/// ```
/// count(alloc, file, &[b"ana"], true, &mut out);   // Ok(true): out has "2\n", where the text is banana
/// ```
pub fn count<W: Write>(
    alloc: Global,
    file: &[u8],
    patterns: &[&[u8]],
    sums: bool,
    out: &mut W,
) -> Result<bool, Failure>
    ensures written { IfOk result (WroteCounts sums file.now (bytes_in patterns.now)
        (W.contents out.old) (W.contents out.new)) }
    ensures wrong { IsErrOf result Failure.WrongBlock → (text : List ℕ) → ¬ (IsTextFile file.now text) }
    ensures nothing { IsErrOf result Failure.WrongBlock → out.new ≡ out.old }
{
    answer(alloc, Asked::Count, file, patterns, sums, out)
}

/// Writes the positions of the text in a file at which one of the patterns stands, each once and in their order, each
/// as a line, and answers whether there are some. An empty pattern stands at each position, the end too.
///
/// # Errors
/// The errors of `count`.
/// # Cost
/// The cost of `count`, and for each position a walk of at most a step, eight bytes of memory, and its part of a sort
/// (evident from the code).
///
/// ```
/// locate(alloc, file, &[b"ana"], true, &mut out);   // Ok(true): out has "1\n3\n", where the text is banana
/// ```
pub fn locate<W: Write>(
    alloc: Global,
    file: &[u8],
    patterns: &[&[u8]],
    sums: bool,
    out: &mut W,
) -> Result<bool, Failure>
    ensures written { IfOk result (WrotePositions sums file.now (bytes_in patterns.now)
        (W.contents out.old) (W.contents out.new)) }
    ensures wrong { IsErrOf result Failure.WrongBlock → (text : List ℕ) → ¬ (IsTextFile file.now text) }
    ensures nothing { IsErrOf result Failure.WrongBlock → out.new ≡ out.old }
{
    answer(alloc, Asked::Locate, file, patterns, sums, out)
}

/// Writes the numbers of the lines of the text in a file that have one of the patterns, the first line being 1, each
/// once and in their order, each as a line, and answers whether there are some. A line has the pattern where it begins
/// in the line, or at the line feed that ends it; it may go on after that. An empty pattern stands in each line.
///
/// # Errors
/// The errors of `count`.
/// # Cost
/// The cost of `locate` of the patterns, and of `locate` of a line feed; for each position of the patterns a search
/// among the line feeds (evident from the code).
///
/// ```
/// lines(alloc, file, &[b"ana"], true, &mut out);   // Ok(true): "1\n3\n", where the lines are banana, fig, ananas
/// ```
pub fn lines<W: Write>(
    alloc: Global,
    file: &[u8],
    patterns: &[&[u8]],
    sums: bool,
    out: &mut W,
) -> Result<bool, Failure>
    ensures written { IfOk result (WroteLines sums file.now (bytes_in patterns.now)
        (W.contents out.old) (W.contents out.new)) }
    ensures wrong { IsErrOf result Failure.WrongBlock → (text : List ℕ) → ¬ (IsTextFile file.now text) }
    ensures nothing { IsErrOf result Failure.WrongBlock → out.new ≡ out.old }
{
    answer(alloc, Asked::Lines, file, patterns, sums, out)
}

/// Writes the answers to a query of patterns in the text of a file, and answers whether one of them was found.
pub(crate) fn answer<W: Write>(
    alloc: Global,
    asked: Asked,
    file: &[u8],
    patterns: &[&[u8]],
    sums: bool,
    out: &mut W,
) -> Result<bool, Failure>
    ensures written { IfOk result (WroteOfFile asked sums file.now (bytes_in patterns.now)
        (W.contents out.old) (W.contents out.new)) }
    ensures wrong { IsErrOf result Failure.WrongBlock → (text : List ℕ) → ¬ (IsTextFile file.now text) }
    ensures nothing { IsErrOf result Failure.WrongBlock → out.new ≡ out.old }
{
    let Some(words) = words_of_bytes(alloc, file)? else {
        return Err(Failure::WrongBlock);
    };
    let Some(text) = opened(words.as_slice(), sums) else {
        return Err(Failure::WrongBlock);
    };
    let numbers = match answers(alloc, asked, &text, patterns) {
        Ok(numbers) => numbers,
        Err(failure) => return Err(failure),
    };
    write_lines(numbers.as_slice(), out)?;
    Ok(is_found(asked, numbers.as_slice()))
}

/// The index in a block. Its header and directory are looked at, and its checksums where these are wanted.
fn opened(words: &[u64], sums: bool) -> Option<TextView<'_>>
    ensures { SomeIff result (IsOpened sums words.now) (parts_in words.now) }
{
    let view = TextView::open(words)?;
    if sums && !is_verified(words) {
        return None;
    }
    Some(view)
}

/// The answers to a query of patterns in a text.
fn answers(
    alloc: Global,
    asked: Asked,
    text: &TextView<'_>,
    patterns: &[&[u8]],
) -> Result<Vec<usize>, Failure>
    ensures answer { HoldsIndex text.now → IfOk result (λ numbers.
        ArePatternAnswers asked (bytes_of_parts text.now) (bytes_in patterns.now) numbers.items) }
    ensures within { IfOk result (λ numbers.
        AreWithin asked text.now.tables.letters.len (bytes_in patterns.now) numbers.items) }
    ensures wrong { HoldsIndex text.now → ¬ (IsErrOf result Failure.WrongBlock) }
{
    match asked {
        Asked::Count => counts(alloc, text, patterns),
        Asked::Locate => all_positions(alloc, text, patterns),
        Asked::Lines => lines_with(alloc, text, patterns),
    }
}

/// Whether these numbers say that a pattern was found.
fn is_found(asked: Asked, numbers: &[usize]) -> bool
    ensures { result ≡ is_found asked numbers.now }
{
    match asked {
        Asked::Count => numbers.iter().any(|count| *count > 0),
        _ => !numbers.is_empty(),
    }
}

/// Writes numbers, each on a line.
fn write_lines<W: Write>(numbers: &[usize], out: &mut W) -> Result<(), CannotWrite>
    ensures { OnOk result (Appends (W.contents out.old) (W.contents out.new) (flat_map line_of numbers.now)) }
{
    for number in numbers {
        writeln!(out, "{number}")?;
    }
    Ok(())
}
