//! Blocks that are written from the text itself: the same as of a program in Python, word for word, and as `write` of
//! an index writes, and what an error leaves.

ghost use Rattle.std.specs.Prelude.{◌≤◌};

use crate::blocks::banana::banana;
use crate::blocks::empty::empty;
use crate::blocks::mississippi::mississippi;
use crate::blocks::texts::small_text;
use std::alloc::Global;
use std::process::Abort;
use std::test::Fail;
use text_block::making::{
    BuildError, block_len_of_bytes, build, build_bytes, scratch_len, scratch_len_of_bytes, size,
    width_for, write,
};
use text_block::{Answer, TextView};
use text_index::{Letters, TextIndex};

/// The letters of mississippi; i is 0, m 1, p 2 and s 3.
const LETTERS: [u8; 11] = [1, 0, 3, 3, 0, 3, 3, 0, 2, 2, 0];

/// Whether these words are written over others for a text of letters.
fn is_built<T: Letters>(
    alloc: Global,
    text: T,
    letters: u32,
    step: u32,
    block: &[u64],
) -> Result<bool, Fail> {
    let Some(len) = scratch_len(text.len(), letters) else {
        return Ok(false);
    };
    let mut scratch = vec![in alloc; 9u32; len]?;
    let mut words = vec![in alloc; 7u64; block.len()]?;
    let built = build(
        text,
        letters,
        step,
        scratch.as_mut_slice(),
        words.as_mut_slice(),
    );
    Ok(built == Ok(()) && words.as_slice() == block)
}

#[test]
fn the_words_of_the_format_are_built(rt: HostRuntime) -> Result<(), Fail> {
    let text = [1u64, 0, 2, 0, 2, 0];
    assert!(rt; is_built(rt.alloc(), text.as_slice(), 3, 4, small_text().as_slice())?);
    let text = [1u32, 0, 2, 0, 2, 0];
    assert!(rt; is_built(rt.alloc(), text.as_slice(), 3, 4, small_text().as_slice())?);
    assert!(rt;
        is_built(
            rt.alloc(),
            LETTERS.as_slice(),
            4,
            3,
            mississippi().as_slice()
        )?
    );
    let none: [u8; 0] = [];
    assert!(rt; is_built(rt.alloc(), none.as_slice(), 1, 1, empty().as_slice())?);
    Ok(())
}

/// Whether the block that is built is the block of an index.
fn is_as_written(alloc: Global, text: &[u64], letters: u32, step: u32) -> Result<bool, Fail>
    requires { 1 ≤ step }
{
    let index = TextIndex::build(alloc, text, letters, step)?;
    let Some(len) = size(text.len(), width_for(letters), letters as usize, step) else {
        return Ok(false);
    };
    let mut words = vec![in alloc; 3u64; len]?;
    if write(&index, words.as_mut_slice()).is_err() {
        return Ok(false);
    }
    is_built(alloc, text, letters, step, words.as_slice())
}

/// Letters below 300, in no order.
fn draw(alloc: Global, len: usize) -> Result<Vec<u64>, Fail> {
    let mut drawn = Vec::new(alloc);
    let mut x = 1u64;
    for _ in 0..len {
        x = x
            .wrapping_mul(6364136223846793005)
            .wrapping_add(1442695040888963407);
        drawn.push((x >> 33) % 300)?;
    }
    Ok(drawn)
}

#[test]
fn blocks_are_those_of_an_index(rt: HostRuntime) -> Result<(), Fail> {
    let many = [1u64, 0, 3, 3, 0, 3, 3, 0, 2, 2, 0];
    for step in [1u32, 2, 5, 64, u32::MAX] {
        assert!(rt; is_as_written(rt.alloc(), [].as_slice(), 0, step)?);
        assert!(rt; is_as_written(rt.alloc(), [0u64].as_slice(), 1, step)?);
        assert!(rt; is_as_written(rt.alloc(), [0u64; 130].as_slice(), 1, step)?);
        assert!(rt; is_as_written(rt.alloc(), [70000u64, 5, 70000].as_slice(), 70001, step)?);
        assert!(rt; is_as_written(rt.alloc(), many.as_slice(), 256, step)?);
        let drawn = draw(rt.alloc(), 700)?;
        assert!(rt; is_as_written(rt.alloc(), drawn.as_slice(), 300, step)?);
    }
    Ok(())
}

#[test]
fn errors_leave_block_and_scratch(rt: HostRuntime) -> Result<(), Fail> {
    let mut scratch = [9u32; 24];
    let mut words = [7u64; 168];
    let text = LETTERS.as_slice();
    assert!(rt; scratch_len(11, 4) == Some(24));
    // The first that applies, in this order.
    assert!(rt;
        build(text, 4, 0, &mut scratch[..23], &mut words[..167]) == Err(BuildError::WrongStep)
    );
    assert!(rt;
        build(text, 4, 3, &mut scratch[..23], &mut words[..167]) == Err(BuildError::WrongLength)
    );
    assert!(rt;
        build(text, 4, 3, &mut scratch[..23], words.as_mut_slice()) == Err(BuildError::WrongScratch)
    );
    assert!(rt; scratch == [9u32; 24]);
    assert!(rt; words == [7u64; 168]);
    assert!(rt; build(text, 4, 3, scratch.as_mut_slice(), words.as_mut_slice()) == Ok(()));
    assert!(rt; words == *mississippi());
    Ok(())
}

#[test]
fn wrong_lengths_are_reported_before_letters_outside(rt: HostRuntime) -> Result<(), Fail> {
    let (mut short, mut fewer) = ([9u32; 23], [7u64; 167]);
    let (mut scratch, mut words) = ([9u32; 24], [7u64; 168]);
    let text = LETTERS.as_slice();
    let step_0 = build(text, 3, 0, short.as_mut_slice(), fewer.as_mut_slice());
    assert!(rt; step_0 == Err(BuildError::WrongStep));
    let too_few = build(text, 3, 3, short.as_mut_slice(), fewer.as_mut_slice());
    assert!(rt; too_few == Err(BuildError::WrongLength));
    let too_short = build(text, 3, 3, short.as_mut_slice(), words.as_mut_slice());
    assert!(rt; too_short == Err(BuildError::WrongScratch));
    let outside = build(text, 3, 3, scratch.as_mut_slice(), words.as_mut_slice());
    assert!(rt; outside == Err(BuildError::LetterOutside));
    assert!(rt; short == [9u32; 23] && fewer == [7u64; 167]);
    assert!(rt; scratch == [9u32; 24] && words == [7u64; 168]);
    Ok(())
}

#[test]
fn lengths_of_scratch(rt: HostRuntime) -> Result<(), Fail> {
    assert!(rt; scratch_len(0, 0) == Some(2));
    assert!(rt; scratch_len(1000, 256) == Some(2002));
    assert!(rt; scratch_len(100, 256) == Some(613));
    assert!(rt; scratch_len(0, u32::MAX) == Some(8589934591));
    assert!(rt; scratch_len((1 << 32) - 2, 0) == Some(8589934590));
    assert!(rt; scratch_len((1 << 32) - 1, 0) == None);
    assert!(rt; width_for(0) == 1 && width_for(1) == 1 && width_for(2) == 1);
    assert!(rt; width_for(3) == 2 && width_for(4) == 2 && width_for(5) == 3);
    assert!(rt; width_for(256) == 8 && width_for(257) == 9 && width_for(u32::MAX) == 32);
    Ok(())
}

#[test]
fn bananas_are_built(rt: HostRuntime) -> Result<(), Fail> {
    let text = b"banana".as_slice();
    let mut scratch = [9u32; 14];
    let mut words = [7u64; 176];
    assert!(rt; block_len_of_bytes(text, 32) == Some(176));
    assert!(rt; scratch_len_of_bytes(text) == Some(14));
    assert!(rt; block_len_of_bytes(text, 0) == None);
    assert!(rt;
        build_bytes(text, 0, &mut scratch[..13], &mut words[..175]) == Err(BuildError::WrongStep)
    );
    assert!(rt;
        build_bytes(text, 32, &mut scratch[..13], &mut words[..175]) == Err(BuildError::WrongLength)
    );
    assert!(rt;
        build_bytes(text, 32, &mut scratch[..13], words.as_mut_slice())
            == Err(BuildError::WrongScratch)
    );
    assert!(rt; scratch == [9u32; 14]);
    assert!(rt; words == [7u64; 176]);
    assert!(rt; build_bytes(text, 32, scratch.as_mut_slice(), words.as_mut_slice()) == Ok(()));
    assert!(rt; words == *banana());
    Ok(())
}

/// Whether the block of a text of bytes is checked, and has the text and no more.
fn is_held(alloc: Global, text: &[u8], step: u32) -> Result<bool, Fail> {
    let (Some(len), Some(room)) = (block_len_of_bytes(text, step), scratch_len_of_bytes(text))
    else {
        return Ok(false);
    };
    let mut scratch = vec![in alloc; 9u32; room]?;
    let mut words = vec![in alloc; 7u64; len]?;
    if build_bytes(text, step, scratch.as_mut_slice(), words.as_mut_slice()).is_err() {
        return Ok(false);
    }
    let Some(view) = TextView::open_checked(words.as_slice()) else {
        return Ok(false);
    };
    let mut all = vec![in alloc; 7u8; text.len()]?;
    let whole = view.extract_bytes(0, all.as_mut_slice()) == Some(Answer::Found(text.len()));
    Ok(whole && all.as_slice() == text && view.len() == text.len())
}

#[test]
fn blocks_of_bytes_hold_their_text(rt: HostRuntime) -> Result<(), Fail> {
    let mut all = [0u8; 512];
    for i in 0..512usize {
        all[i] = (i * 167 % 256) as u8;
    }
    for step in [1u32, 7, 32, u32::MAX] {
        assert!(rt; is_held(rt.alloc(), b"".as_slice(), step)?);
        assert!(rt; is_held(rt.alloc(), b"\x00".as_slice(), step)?);
        assert!(rt; is_held(rt.alloc(), b"\xff\xff\xff".as_slice(), step)?);
        assert!(rt; is_held(rt.alloc(), b"GATTACA GATTACA".as_slice(), step)?);
        assert!(rt; is_held(rt.alloc(), all.as_slice(), step)?);
    }
    Ok(())
}
