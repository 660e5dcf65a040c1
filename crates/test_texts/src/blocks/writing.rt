//! Blocks that are written: the same as of a program in Python, word for word, and others that hold their text.
ghost use Rattle.std.specs.Prelude.{◌≤◌};

use crate::blocks::empty::empty;
use crate::blocks::mississippi::mississippi;
use crate::blocks::texts::small_text;
use std::alloc::Global;
use std::process::Abort;
use std::test::Fail;
use text_block::making::{BuildError, size, size_of_bytes, write};
use text_block::{Answer, TextView};
use text_index::TextIndex;

/// The letters of mississippi; i is 0, m 1, p 2 and s 3.
const LETTERS: [u64; 11] = [1, 0, 3, 3, 0, 3, 3, 0, 2, 2, 0];

/// Whether these words are written over others for the index of a text.
fn is_written(
    alloc: Global,
    text: &[u64],
    letters: u32,
    step: u32,
    block: &[u64],
) -> Result<bool, Fail>
    requires { 1 ≤ step }
{
    let index = TextIndex::build(alloc, text, letters, step)?;
    let mut words = vec![in alloc; 7u64; block.len()]?;
    let written = write(&index, words.as_mut_slice());
    Ok(written.is_ok() && words.as_slice() == block)
}

#[test]
fn the_words_of_the_format_are_written(rt: HostRuntime) -> Result<(), Fail> {
    let text = [1u64, 0, 2, 0, 2, 0];
    assert!(rt; is_written(rt.alloc(), text.as_slice(), 3, 4, small_text().as_slice())?);
    assert!(rt;
        is_written(
            rt.alloc(),
            LETTERS.as_slice(),
            4,
            3,
            mississippi().as_slice()
        )?
    );
    assert!(rt; is_written(rt.alloc(), [].as_slice(), 1, 1, empty().as_slice())?);
    Ok(())
}

/// How many lengths up to the number of words are refused, with no word changed.
fn refused(index: &TextIndex, words: &mut [u64]) -> usize {
    let mut refused = 0usize;
    for len in 0..words.len() {
        let wrong = write(index, &mut words[..len]) == Err(BuildError::WrongLength);
        let same = words.iter().all(|word| *word == 7);
        refused = refused.wrapping_add((wrong && same) as usize);
    }
    refused
}

#[test]
fn other_lengths_are_refused(rt: HostRuntime) -> Result<(), Fail> {
    let index = TextIndex::build(rt.alloc(), LETTERS.as_slice(), 4, 3)?;
    let mut words = [7u64; 168];
    let mut longer = [7u64; 169];
    assert!(rt; refused(&index, words.as_mut_slice()) == 168);
    assert!(rt; write(&index, longer.as_mut_slice()) == Err(BuildError::WrongLength));
    assert!(rt; longer == [7u64; 169]);
    assert!(rt; write(&index, words.as_mut_slice()) == Ok(()));
    assert!(rt; words == *mississippi());
    Ok(())
}

#[test]
fn sizes_are_those_of_the_sections(rt: HostRuntime) -> Result<(), Fail> {
    assert!(rt; size(6, 2, 3, 4) == Some(168));
    assert!(rt; size(11, 2, 4, 3) == Some(168));
    assert!(rt; size(0, 1, 1, 1) == Some(144));
    // 72 and 1000 + 8 + 32 + 64 + 64, then 1000, then 16 + 8 + 8 + 8 + 8, then 1000
    assert!(rt; size(999, 64, 1000, 1) == Some(3288));
    assert!(rt; size((1 << 32) - 2, 64, 0, 1).is_some());
    assert!(rt; size((1 << 32) - 1, 64, 0, 1) == None);
    assert!(rt; size(6, 0, 3, 4) == None);
    assert!(rt; size(6, 65, 3, 4) == None);
    assert!(rt; size(6, 2, (1 << 58) - 1, 4).is_some());
    assert!(rt; size(6, 2, 1 << 58, 4) == None);
    assert!(rt; size(6, 2, 3, 0) == None);
    Ok(())
}

#[test]
fn sizes_of_bytes_are_those_of_the_sections(rt: HostRuntime) -> Result<(), Fail> {
    // 72 and 8 + 8 + 8 + 8 + 8, then 8, then 8 + 8 + 8 + 8 + 8, then 8, then 8
    assert!(rt; size_of_bytes(6, 3, 32) == Some(176));
    // 72 and 0 + 0 + 0 + 8 + 8, then 0, then 8 + 8 + 8 + 8 + 8, then 8, then 8
    assert!(rt; size_of_bytes(0, 0, 1) == Some(144));
    // 72 and 32 + 8 + 8 + 8 + 8, then 256, then 8 + 8 + 8 + 8 + 8, then 16, then 8
    assert!(rt; size_of_bytes(256, 256, 32) == Some(456));
    // 2 bits a letter of four: 72 and 16 + 8 + 8 + 8 + 8, then 8, then 16 + 8 + 8 + 8 + 8, then 8, then 8
    assert!(rt; size_of_bytes(512, 4, 512) == Some(192));
    // 3 bits a letter of five: 24 words in place of 16
    assert!(rt; size_of_bytes(512, 5, 512) == Some(200));
    assert!(rt; size_of_bytes(256, 257, 32) == None);
    assert!(rt; size_of_bytes(6, 3, 0) == None);
    assert!(rt; size_of_bytes((1 << 32) - 1, 3, 32) == None);
    Ok(())
}

/// Whether the letters are the letters of the text in a block.
fn is_text(view: &TextView<'_>, text: &[u64], letters: &mut [u64]) -> bool {
    let whole = match view.extract(0, &mut *letters) {
        Answer::Found(count) => count == text.len(),
        _ => false,
    };
    whole && view.len() == text.len() && *letters == *text
}

/// Whether a block is written for the index of a text, and is checked and holds the text.
fn is_held(alloc: Global, text: &[u64], letters: u32, step: u32) -> Result<bool, Fail>
    requires { 1 ≤ step }
{
    let index = TextIndex::build(alloc, text, letters, step)?;
    let (parts, _letters, _marks) = index.parts();
    let Some(len) = size(text.len(), parts.width(), letters as usize, step) else {
        return Ok(false);
    };
    let mut words = vec![in alloc; 7u64; len]?;
    let mut room = vec![in alloc; 7u64; text.len()]?;
    if write(&index, words.as_mut_slice()).is_err() {
        return Ok(false);
    }
    let Some(view) = TextView::open_checked(words.as_slice()) else {
        return Ok(false);
    };
    Ok(is_text(&view, text, room.as_mut_slice()))
}

/// Letters below 300, in no order.
fn draw(alloc: Global, len: usize) -> Result<Vec<u64>, Fail> {
    let mut drawn = Vec::new(alloc);
    let mut x = 1u64;
    for _ in 0..len {
        x = x
            .wrapping_mul(6364136223846793005)
            .wrapping_add(1442695040888963407);
        drawn.push((x >> 33) % 300)?;
    }
    Ok(drawn)
}

#[test]
fn written_blocks_hold_their_text(rt: HostRuntime) -> Result<(), Fail> {
    for step in [1u32, 2, 5, 64, u32::MAX] {
        assert!(rt; is_held(rt.alloc(), [].as_slice(), 0, step)?);
        assert!(rt; is_held(rt.alloc(), [0u64].as_slice(), 1, step)?);
        assert!(rt; is_held(rt.alloc(), [0u64; 130].as_slice(), 1, step)?);
        assert!(rt; is_held(rt.alloc(), [70000u64, 5, 70000].as_slice(), 70001, step)?);
        assert!(rt; is_held(rt.alloc(), LETTERS.as_slice(), 256, step)?);
        let drawn = draw(rt.alloc(), 700)?;
        assert!(rt; is_held(rt.alloc(), drawn.as_slice(), 300, step)?);
    }
    Ok(())
}
