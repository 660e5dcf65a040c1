//! Texts of each kind, all their short patterns, and what no index is made of.
use std::alloc::Global;
use std::process::Abort;
use std::test::Fail;
use text_index::{BuildError, TextIndex};

/// abracadabra, with 0 for a.
pub const WORD: [u64; 11] = [0, 1, 17, 0, 2, 0, 3, 0, 1, 17, 0];

/// Texts of at most three letters below 3.
pub const SHORT_TEXTS: [&[u64]; 8] = [
    &[],
    &[0],
    &[1],
    &[0, 0],
    &[0, 1],
    &[1, 0],
    &[1, 1],
    &[2, 1, 2],
];

/// Whether the text goes on with the pattern from here.
pub fn goes_on(text: &[u64], from: usize, pattern: &[u64]) -> bool {
    for i in 0..pattern.len() {
        let at = from.saturating_add(i);
        if at >= text.len() || text[at] != pattern[i] {
            return false;
        }
    }
    true
}

/// At how many positions the pattern stands, by a walk over all, the end too.
fn walk(text: &[u64], pattern: &[u64]) -> usize {
    let mut count = 0usize;
    for from in 0..=text.len() {
        count = count.wrapping_add(goes_on(text, from, pattern) as usize);
    }
    count
}

/// Whether the index counts a piece of the text, and its first letter with another one, as a walk.
fn counts(index: &TextIndex, text: &[u64], piece: &[u64], letter: u64) -> bool {
    let other = [if piece.is_empty() { 0 } else { piece[0] }, letter];
    let is_right = index.count(piece) == walk(text, piece);
    is_right & (index.count(other.as_slice()) == walk(text, other.as_slice()))
}

/// Whether the index counts each piece of up to four letters of the text, and that piece with a letter more, as a walk.
fn agrees(index: &TextIndex, text: &[u64], letters: u32) -> bool {
    let mut agrees = index.len() == text.len() && index.is_empty() == text.is_empty();
    for from in 0..=text.len() {
        for len in 0..5usize {
            let to = from.saturating_add(len).min(text.len());
            agrees &= counts(index, text, &text[from..to], letters as u64 / 2);
        }
    }
    agrees
}

/// Some letters below `letters`, which repeat.
pub fn draw(alloc: Global, len: usize, letters: u64) -> Result<Vec<u64>, Fail> {
    let mut made = Vec::new(alloc);
    let mut state: u64 = 88172645463325252;
    for _ in 0..len {
        state ^= state << 13;
        state ^= state >> 7;
        state ^= state << 17;
        made.push(state % letters.max(1))?;
    }
    Ok(made)
}

/// The letters 0 to `period` - 1 over and over.
pub fn repeat(alloc: Global, len: usize, period: u64) -> Result<Vec<u64>, Fail> {
    let mut made = Vec::new(alloc);
    for i in 0..len {
        made.push(i as u64 % period.max(1))?;
    }
    Ok(made)
}

/// Patterns, and how often each stands in abracadabra.
const COUNTS: [(&[u64], usize); 9] = [
    (&[], 12),
    (&[0], 5),
    (&[0, 1, 17, 0], 2),
    (&[0, 2], 1),
    (&[17, 0, 0], 0),
    (&[18], 0),
    (&[u64::MAX, 0], 0),
    (&WORD, 1),
    (&[1, 0, 1, 17, 0, 2, 0, 3, 0, 1, 17, 0], 0),
];

/// Whether the index counts each pattern as its row says.
fn counts_rows(index: &TextIndex, rows: &[(&[u64], usize)]) -> bool {
    let mut is_right = true;
    for (pattern, count) in rows {
        is_right &= index.count(pattern) == *count;
    }
    is_right
}

#[test]
fn a_text_is_counted_as_by_hand(rt: HostRuntime) -> Result<(), Fail> {
    let index = TextIndex::build(rt.alloc(), WORD.as_slice(), 18, 4)?;
    assert!(rt; counts_rows(&index, COUNTS.as_slice()));
    Ok(())
}

/// Whether an index of the text counts as a walk.
fn is_counted(alloc: Global, text: &[u64], letters: u32) -> Result<bool, Fail> {
    let index = TextIndex::build(alloc, text, letters, 4)?;
    Ok(agrees(&index, text, letters))
}

/// Whether an index of no letters counts what stands in no text.
fn is_empty_counted(alloc: Global) -> Result<bool, Fail> {
    let index = TextIndex::build(alloc, [0u64; 0].as_slice(), 0, 4)?;
    let rows: [(&[u64], usize); 2] = [(&[], 1), (&[0], 0)];
    Ok(index.is_empty() & counts_rows(&index, rows.as_slice()))
}

#[test]
fn short_texts_are_counted_as_by_a_walk(rt: HostRuntime) -> Result<(), Fail> {
    for text in SHORT_TEXTS {
        for letters in [3u32, 4, 300] {
            assert!(rt; is_counted(rt.alloc(), text, letters)?);
        }
    }
    assert!(rt; is_empty_counted(rt.alloc())?);
    Ok(())
}

/// Whether an index of some letters counts as a walk.
fn is_drawn_counted(alloc: Global, len: usize, letters: u32) -> Result<bool, Fail> {
    let text = draw(alloc, len, u64::from(letters))?;
    is_counted(alloc, text.as_slice(), letters)
}

/// Whether an index of letters over and over counts as a walk.
fn is_repeated_counted(alloc: Global, len: usize, period: u64) -> Result<bool, Fail> {
    let text = repeat(alloc, len, period)?;
    is_counted(alloc, text.as_slice(), 256)
}

#[test]
fn texts_that_repeat_are_counted_as_by_a_walk(rt: HostRuntime) -> Result<(), Fail> {
    for (len, letters) in [(200, 2), (200, 4), (300, 256), (100, 100000)] {
        assert!(rt; is_drawn_counted(rt.alloc(), len, letters)?);
    }
    for (len, period) in [(100, 1), (129, 2), (90, 3), (300, 256)] {
        assert!(rt; is_repeated_counted(rt.alloc(), len, period)?);
    }
    Ok(())
}

/// Whether the index of a long text of two letters counts as by hand.
fn is_long_counted(alloc: Global) -> Result<bool, Fail> {
    let text = repeat(alloc, 1 << 16, 2)?;
    if text.len() != 1 << 16 {
        return Ok(false);
    }
    let index = TextIndex::build(alloc, text.as_slice(), 256, 4)?;
    let rows: [(&[u64], usize); 3] = [
        (&[0], 1 << 15),
        (&[1, 0], (1 << 15) - 1),
        (&text.as_slice()[1000..], 501),
    ];
    Ok(counts_rows(&index, rows.as_slice()))
}

/// Whether the index of a long text of many letters counts a piece of it as a walk.
fn is_long_draw_counted(alloc: Global) -> Result<bool, Fail> {
    let drawn = draw(alloc, 1 << 16, 256)?;
    if drawn.len() != 1 << 16 {
        return Ok(false);
    }
    let index = TextIndex::build(alloc, drawn.as_slice(), 256, 4)?;
    let piece = &drawn.as_slice()[77..79];
    Ok(index.count(piece) == walk(drawn.as_slice(), piece))
}

/// Whether indexes of abracadabra as bytes and as numbers of 32 bits count as by hand.
fn are_narrow_counted(alloc: Global) -> Result<bool, Fail> {
    let bytes = TextIndex::build(alloc, b"abracadabra".as_slice(), 256, 4)?;
    let numbers = [97u32, 98, 114, 97, 99, 97, 100, 97, 98, 114, 97];
    let wide = TextIndex::build(alloc, numbers.as_slice(), 256, 4)?;
    let mut right = true;
    for index in [&bytes, &wide] {
        right &= index.count([97u64, 98].as_slice()) == 2 && index.count([97u64].as_slice()) == 5;
        right &= index.count([98u64, 97].as_slice()) == 0;
    }
    Ok(right)
}

#[test]
fn texts_of_bytes_are_counted_as_by_hand(rt: HostRuntime) -> Result<(), Fail> {
    assert!(rt; are_narrow_counted(rt.alloc())?);
    Ok(())
}

#[test]
fn long_texts_are_indexed(rt: HostRuntime) -> Result<(), Fail> {
    assert!(rt; is_long_counted(rt.alloc())?);
    assert!(rt; is_long_draw_counted(rt.alloc())?);
    Ok(())
}

#[test]
fn a_letter_outside_is_refused(rt: HostRuntime) -> Result<(), Fail> {
    let text = [0u64, 1, 17];
    let Err(refused) = TextIndex::build(rt.alloc(), text.as_slice(), 17, 4) else {
        return Err("a letter outside was indexed".into());
    };
    assert!(rt; refused == BuildError::LetterOutside);
    Ok(())
}

/// banana, with 0 for a.
const BANANA: [u64; 6] = [1, 0, 2, 0, 2, 0];

/// The order of its suffixes, worked out by hand.
const ORDER: [u32; 7] = [6, 5, 3, 1, 0, 4, 2];

/// How often a pattern stands in banana, by an index of that order.
fn counted(alloc: Global, pattern: &[u64]) -> Result<usize, Fail> {
    let index = TextIndex::build_from(alloc, BANANA.as_slice(), 3, 2, ORDER.as_slice())?;
    Ok(index.count(pattern))
}

/// Whether these are refused as an order of the suffixes of banana.
fn is_refused(alloc: Global, order: &[u32]) -> bool {
    match TextIndex::build_from(alloc, BANANA.as_slice(), 3, 2, order) {
        Ok(_index) => false,
        Err(error) => error == BuildError::OutOfOrder,
    }
}

#[test]
fn an_order_from_elsewhere_is_taken_if_it_is_right(rt: HostRuntime) -> Result<(), Fail> {
    assert!(rt; counted(rt.alloc(), [0, 2].as_slice())? == 2);
    for (at, position) in [(0usize, 5u32), (1, 3), (2, 1), (3, 7), (6, u32::MAX)] {
        let mut other = ORDER;
        other[at] = position;
        assert!(rt; is_refused(rt.alloc(), other.as_slice()));
    }
    for at in 0..6usize {
        let mut other = ORDER;
        other.swap(at, at + 1);
        assert!(rt; is_refused(rt.alloc(), other.as_slice()));
    }
    assert!(rt; is_refused(rt.alloc(), [6, 5, 3, 1, 0, 4].as_slice()));
    assert!(rt; is_refused(rt.alloc(), [6, 5, 3, 1, 0, 4, 2, 2].as_slice()));
    assert!(rt; is_refused(rt.alloc(), [].as_slice()));
    Ok(())
}
