//! At how many positions of a text patterns stand, and at which.
ghost use Rattle.std.specs.Prelude.{◌≡◌, ◌+◌, ◌≤◌, All, IfOk, IsErrOf, Ok, length, map};
ghost use Rattle.std.specs.List.Sorted.{IsNonDecreasing, IsStrictlyIncreasing};
ghost use Rattle.program_files.specs.Answers.{AreFound, ArePositions};
ghost use Rattle.program_files.specs.Lines.{bytes_in, AreFoundOf, AreAllPositions};
ghost use Rattle.text_block.specs.Block.{HoldsIndex, bytes_of_parts};
ghost use Rattle.text_index.specs.Text.{occurrences};

use crate::texts::failure::Failure;
use std::alloc::Global;
use text_block::{Answer, TextView};

/// At how many positions of the text the pattern stands.
///
/// # Errors
/// `WrongBlock` only where the block holds no index, and the same of all functions here.
fn count_in(text: &TextView<'_>, pattern: &[u8]) -> Result<usize, Failure>
    ensures answer { HoldsIndex text.now → result ≡ Ok (occurrences (bytes_of_parts text.now) pattern.now) }
    ensures within { IfOk result (λ count. count ≤ text.now.tables.letters.len + 1) }
{
    match text.count_bytes(pattern) {
        Answer::Found(count) => Ok(count),
        _ => Err(Failure::WrongBlock),
    }
}

/// At how many positions of the text each of the patterns stands.
pub(crate) fn counts(
    alloc: Global,
    text: &TextView<'_>,
    patterns: &[&[u8]],
) -> Result<Vec<usize>, Failure>
    ensures answer { HoldsIndex text.now → IfOk result (λ made.
        made.items ≡ map (occurrences (bytes_of_parts text.now)) (bytes_in patterns.now)) }
    ensures each { IfOk result (λ made. length made.items ≡ length patterns.now) }
    ensures within { IfOk result (λ made. All (λ count. count ≤ text.now.tables.letters.len + 1) made.items) }
    ensures wrong { HoldsIndex text.now → ¬ (IsErrOf result Failure.WrongBlock) }
{
    let mut made = Vec::new(alloc);
    for pattern in patterns {
        let count = count_in(text, *pattern)?;
        if made.push(count).is_err() {
            return Err(Failure::NoMemory);
        }
    }
    Ok(made)
}

/// The positions at which the pattern stands, in the order of the suffixes that begin there.
fn located(alloc: Global, text: &TextView<'_>, pattern: &[u8]) -> Result<Vec<usize>, Failure>
    ensures answer { HoldsIndex text.now → IfOk result (λ found.
        AreFound (bytes_of_parts text.now) pattern.now found.items) }
    ensures within { IfOk result (λ found. All (λ position. position ≤ text.now.tables.letters.len) found.items) }
    ensures wrong { HoldsIndex text.now → ¬ (IsErrOf result Failure.WrongBlock) }
{
    let count = count_in(text, pattern)?;
    let mut found = vec![in alloc; 0usize; count]?;
    match text.locate_bytes(pattern, 0, found.as_mut_slice()) {
        Answer::Found(many) if many == count => Ok(found),
        _ => Err(Failure::WrongBlock),
    }
}

/// The positions at which the pattern stands, in their order.
pub(crate) fn positions(
    alloc: Global,
    text: &TextView<'_>,
    pattern: &[u8],
) -> Result<Vec<usize>, Failure>
    ensures answer { HoldsIndex text.now → IfOk result (λ found.
        ArePositions (bytes_of_parts text.now) pattern.now found.items) }
    ensures rising { IfOk result (λ found. IsNonDecreasing found.items) }
    ensures wrong { HoldsIndex text.now → ¬ (IsErrOf result Failure.WrongBlock) }
{
    let mut found = located(alloc, text, pattern)?;
    found.sort_unstable();
    Ok(found)
}

/// The positions at which each of the patterns stands, one pattern after another.
fn located_all(
    alloc: Global,
    text: &TextView<'_>,
    patterns: &[&[u8]],
) -> Result<Vec<usize>, Failure>
    ensures answer { HoldsIndex text.now → IfOk result (λ all.
        AreFoundOf (bytes_in patterns.now) (bytes_of_parts text.now) all.items) }
    ensures within { IfOk result (λ all. All (λ position. position ≤ text.now.tables.letters.len) all.items) }
    ensures wrong { HoldsIndex text.now → ¬ (IsErrOf result Failure.WrongBlock) }
{
    let mut all = Vec::new(alloc);
    for pattern in patterns {
        let found = located(alloc, text, *pattern)?;
        all.extend_from_slice(found.as_slice())?;
    }
    Ok(all)
}

/// The positions at which one of the patterns stands, each once and in their order.
pub(crate) fn all_positions(
    alloc: Global,
    text: &TextView<'_>,
    patterns: &[&[u8]],
) -> Result<Vec<usize>, Failure>
    ensures answer { HoldsIndex text.now → IfOk result (λ made.
        AreAllPositions (bytes_in patterns.now) (bytes_of_parts text.now) made.items) }
    ensures within { IfOk result (λ made. All (λ position. position ≤ text.now.tables.letters.len) made.items) }
    ensures rising { IfOk result (λ made. IsStrictlyIncreasing made.items) }
    ensures wrong { HoldsIndex text.now → ¬ (IsErrOf result Failure.WrongBlock) }
{
    let mut made = located_all(alloc, text, patterns)?;
    made.sort_unstable();
    made.dedup();
    Ok(made)
}
