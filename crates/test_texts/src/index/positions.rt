//! Where patterns stand and what the text is, beside a walk over the text.
ghost use Rattle.std.specs.Prelude.{◌≤◌};

use crate::index::texts::{WORD, draw, goes_on, repeat};
use std::alloc::Global;
use std::process::Abort;
use std::test::Fail;
use text_index::TextIndex;

/// Whether the suffix at one position goes before that at another.
pub fn goes_before(text: &[u64], first: usize, second: usize) -> bool {
    for i in 0..=text.len() {
        let (a, b) = (first.saturating_add(i), second.saturating_add(i));
        if b >= text.len() {
            return false;
        }
        if a >= text.len() || text[a] < text[b] {
            return true;
        }
        if text[a] > text[b] {
            return false;
        }
    }
    false
}

/// Whether these are all positions of the pattern, each once, in the order of the suffixes.
fn are_all(text: &[u64], pattern: &[u64], found: &[usize]) -> bool {
    let mut right = true;
    let mut last = None;
    for position in found {
        right &= *position <= text.len() && goes_on(text, *position, pattern);
        if let Some(before) = last {
            right &= goes_before(text, before, *position);
        }
        last = Some(*position);
    }
    let mut count = 0usize;
    for from in 0..=text.len() {
        count = count.wrapping_add(goes_on(text, from, pattern) as usize);
    }
    right && count == found.len()
}

/// Adds the positions of a pattern that one call finds, and answers how many these are.
fn push_page(
    index: &TextIndex,
    pattern: &[u64],
    found: &mut Vec<usize>,
    out: &mut [usize],
) -> Result<usize, Fail> {
    let count = index.locate(pattern, found.len(), out);
    for k in 0..count {
        found.push(if k < out.len() { out[k] } else { usize::MAX })?;
    }
    Ok(count)
}

/// The positions of a pattern, by calls with room for `room` of them.
fn located(
    alloc: Global,
    index: &TextIndex,
    pattern: &[u64],
    room: usize,
) -> Result<Vec<usize>, Fail> {
    let mut found = Vec::new(alloc);
    let mut out = vec![in alloc; 0usize; room]?;
    for _ in 0..=index.len() {
        if push_page(index, pattern, &mut found, out.as_mut_slice())? < room {
            break;
        }
    }
    Ok(found)
}

/// How often a pattern stands in the text, by a pattern that grows from its last letter on.
fn grown(index: &TextIndex, pattern: &[u64]) -> usize {
    let mut grown = index.prefix_count();
    for k in 0..pattern.len() {
        grown.extend(pattern[pattern.len() - 1 - k]);
    }
    grown.count()
}

/// Whether the positions of a pattern that come one after another are these.
fn come(index: &TextIndex, pattern: &[u64], all: &[usize]) -> bool {
    let mut right = true;
    let mut came = 0usize;
    for position in index.matches(pattern) {
        right &= came < all.len() && all[came] == position;
        came = came.wrapping_add(1);
    }
    right && came == all.len()
}

/// Whether an index finds a piece of the text in each way, with room for `room` positions.
fn finds(
    alloc: Global,
    index: &TextIndex,
    text: &[u64],
    piece: &[u64],
    room: usize,
) -> Result<bool, Fail> {
    let found = located(alloc, index, piece, room)?;
    let all = found.as_slice();
    let is_counted = grown(index, piece) == all.len();
    Ok(is_counted & are_all(text, piece, all) & come(index, piece, all))
}

/// Whether an index has this piece of its text from a position on.
fn has_piece(alloc: Global, index: &TextIndex, from: usize, piece: &[u64]) -> Result<bool, Fail> {
    let mut letters = vec![in alloc; 9u64; piece.len()]?;
    if from <= index.len() && piece.len() <= index.len() - from {
        index.extract(from, letters.as_mut_slice());
    }
    Ok(letters.as_slice() == piece)
}

/// Whether an index finds the pieces of up to three letters, and that text.
fn agrees(alloc: Global, index: &TextIndex, text: &[u64]) -> Result<bool, Fail> {
    let mut right = index.len() == text.len();
    for from in 0..=text.len() {
        for len in 0..4usize {
            let to = from.saturating_add(len).min(text.len());
            let piece = &text[from..to];
            right &= finds(alloc, index, text, piece, 1 + from % 7)?;
            right &= has_piece(alloc, index, from, piece)?;
        }
    }
    Ok(right & has_piece(alloc, index, 0, text)?)
}

/// A pattern, how many positions are passed over and found, and what room for three then has, which had 77.
type Row = (&'static [u64], usize, usize, [usize; 3]);

/// Calls on abracadabra.
const FOUND: [Row; 5] = [
    (&[0], 0, 3, [10, 7, 0]),
    (&[0], 3, 2, [3, 5, 77]),
    (&[0], 5, 0, [77, 77, 77]),
    (&[0], usize::MAX, 0, [77, 77, 77]),
    (&[4], 0, 0, [77, 77, 77]),
];

/// Whether an index of abracadabra locates patterns as by hand: the suffixes in order are those at 11, 10, 7, 0, 3, 5,
/// 8, 1, 4, 6, 9, 2.
fn locates_as_by_hand(index: &TextIndex) -> bool {
    let mut out = [77usize; 12];
    let mut right = index.locate([].as_slice(), 0, out.as_mut_slice()) == 12;
    right &= out == [11, 10, 7, 0, 3, 5, 8, 1, 4, 6, 9, 2];
    for (pattern, from, count, positions) in FOUND {
        let mut room = [77usize; 3];
        right &= index.locate(pattern, from, room.as_mut_slice()) == count;
        right &= room == positions;
    }
    right
}

/// Whether the positions of a pattern come as by hand, and then no more.
fn comes_as_by_hand(index: &TextIndex) -> bool {
    let mut came = index.matches([0, 1].as_slice());
    let first = (came.next(), came.next());
    let last = (came.next(), came.next());
    first == (Some(7), Some(0)) && last == (None, None)
}

/// Whether a pattern that grows is counted as by hand.
fn grows_as_by_hand(index: &TextIndex) -> bool {
    let mut grown = index.prefix_count();
    let all = grown.count();
    grown.extend(1);
    grown.extend(0);
    let some = grown.count();
    grown.extend(1);
    (all, some, grown.count()) == (12, 2, 0)
}

/// Whether letters are extracted as by hand.
fn extracts_as_by_hand(index: &TextIndex) -> bool {
    let mut four = [5u64; 4];
    if index.len() != 11 {
        return false;
    }
    index.extract(7, four.as_mut_slice());
    index.extract(11, [].as_mut_slice());
    four == [0, 1, 17, 0]
}

/// Whether an index of abracadabra with this step answers as by hand.
fn answers_as_by_hand(alloc: Global, step: u32) -> Result<bool, Fail>
    requires { 1 ≤ step }
{
    let index = TextIndex::build(alloc, WORD.as_slice(), 18, step)?;
    let right = locates_as_by_hand(&index) & comes_as_by_hand(&index);
    Ok(right & grows_as_by_hand(&index) & extracts_as_by_hand(&index))
}

#[test]
fn positions_are_as_by_hand(rt: HostRuntime) -> Result<(), Fail> {
    for step in [1u32, 2, 3, 4, 100] {
        assert!(rt; answers_as_by_hand(rt.alloc(), step)?);
    }
    Ok(())
}

/// Whether an index of a text with this step agrees with a walk.
fn is_walked(alloc: Global, text: &[u64], letters: u32, step: u32) -> Result<bool, Fail>
    requires { 1 ≤ step }
{
    let index = TextIndex::build(alloc, text, letters, step)?;
    agrees(alloc, &index, text)
}

/// Whether an index of some letters does.
fn is_drawn_walked(alloc: Global, len: usize, letters: u32, step: u32) -> Result<bool, Fail>
    requires { 1 ≤ step }
{
    let text = draw(alloc, len, u64::from(letters))?;
    is_walked(alloc, text.as_slice(), letters, step)
}

/// Whether an index of letters over and over does.
fn is_repeated_walked(alloc: Global) -> Result<bool, Fail> {
    let text = repeat(alloc, 25, 3)?;
    is_walked(alloc, text.as_slice(), 256, 16)
}

#[test]
fn positions_are_those_of_a_walk(rt: HostRuntime) -> Result<(), Fail> {
    for (len, letters) in [(0, 1), (1, 1), (20, 1), (30, 2), (30, 256)] {
        for step in [1u32, 5, 4294967295] {
            assert!(rt; is_drawn_walked(rt.alloc(), len, letters, step)?);
        }
    }
    assert!(rt; is_repeated_walked(rt.alloc())?);
    Ok(())
}
