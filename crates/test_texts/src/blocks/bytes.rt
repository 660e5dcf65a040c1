//! Texts of bytes: which bytes are letters, and what is answered of bytes.
use crate::blocks::banana::banana;
use matrix_block::MatrixView;
use std::alloc::Global;
use std::process::Abort;
use std::test::Fail;
use text_block::making::{ByteSet, MappedBytes, size, write};
use text_block::{Answer, TextView};
use text_index::{Letters, TextIndex};

/// The number that was found, or 1000 for `Absent`, 1001 for `Wrong`.
fn coded(answer: Answer<usize>) -> usize {
    match answer {
        Answer::Found(number) => number,
        Answer::Absent => 1000,
        Answer::Wrong => 1001,
    }
}

/// The positions of a pattern, at most four, or 9 where none was written.
fn located(text: &TextView<'_>, pattern: &[u8], from: usize) -> [usize; 5] {
    let mut out = [9usize; 4];
    let count = coded(text.locate_bytes(pattern, from, out.as_mut_slice()));
    [count, out[0], out[1], out[2], out[3]]
}

#[test]
fn patterns_of_bytes_are_counted(rt: HostRuntime) -> Result<(), Fail> {
    let Some(text) = TextView::open_checked(banana().as_slice()) else {
        assert!(rt; false, "not opened");
        return Ok(());
    };
    assert!(rt; text.len() == 6 && text.width() == 2);
    for (pattern, count) in [
        (b"".as_slice(), 7usize),
        (b"a".as_slice(), 3),
        (b"b".as_slice(), 1),
        (b"n".as_slice(), 2),
        (b"ana".as_slice(), 2),
        (b"nan".as_slice(), 1),
        (b"banana".as_slice(), 1),
        (b"bananas".as_slice(), 0),
        (b"c".as_slice(), 0),
        (b"anc".as_slice(), 0),
        (b"cab".as_slice(), 0),
        (b"`".as_slice(), 0),
        (b"o".as_slice(), 0),
        (b"\x00".as_slice(), 0),
        (b"\x01".as_slice(), 0),
        (b"\xff".as_slice(), 0),
    ] {
        assert!(rt; coded(text.count_bytes(pattern)) == count);
    }
    // As numbers, the letters are 0, 1 and 2.
    assert!(rt; coded(text.count([0u64, 2, 0].as_slice())) == 2);
    assert!(rt; coded(text.count([0x61u64].as_slice())) == 0);
    Ok(())
}

#[test]
fn patterns_of_bytes_are_located(rt: HostRuntime) -> Result<(), Fail> {
    let Some(text) = TextView::open_checked(banana().as_slice()) else {
        assert!(rt; false, "not opened");
        return Ok(());
    };
    assert!(rt; located(&text, b"".as_slice(), 0) == [4, 6, 5, 3, 1]);
    assert!(rt; located(&text, b"".as_slice(), 4) == [3, 0, 4, 2, 9]);
    assert!(rt; located(&text, b"ana".as_slice(), 0) == [2, 3, 1, 9, 9]);
    assert!(rt; located(&text, b"n".as_slice(), 1) == [1, 2, 9, 9, 9]);
    assert!(rt; located(&text, b"m".as_slice(), 0) == [0, 9, 9, 9, 9]);
    Ok(())
}

#[test]
fn bytes_are_extracted(rt: HostRuntime) -> Result<(), Fail> {
    let Some(text) = TextView::open_checked(banana().as_slice()) else {
        assert!(rt; false, "not opened");
        return Ok(());
    };
    let mut all = [0u8; 6];
    let mut three = [0u8; 3];
    let mut letters = [9u64; 6];
    assert!(rt; text.extract_bytes(0, all.as_mut_slice()) == Some(Answer::Found(6)));
    assert!(rt; all.as_slice() == b"banana".as_slice());
    assert!(rt; text.extract_bytes(2, three.as_mut_slice()) == Some(Answer::Found(3)));
    assert!(rt; three.as_slice() == b"nan".as_slice());
    assert!(rt; text.extract_bytes(4, three.as_mut_slice()) == Some(Answer::Absent));
    assert!(rt; three.as_slice() == b"nan".as_slice());
    assert!(rt; coded(text.extract(0, letters.as_mut_slice())) == 6);
    assert!(rt; letters == [1, 0, 2, 0, 2, 0]);
    Ok(())
}

/// The same matrix.
fn same<'a>(matrix: &MatrixView<'a>) -> Option<MatrixView<'a>> {
    let (levels, _source) = matrix.parts();
    MatrixView::over(
        levels.copy(),
        matrix.words(),
        matrix.upper(),
        matrix.lower(),
    )
}

/// The text of a view, whose letters stand for these bytes.
fn with_used<'a>(text: &TextView<'a>, used: &'a [u64]) -> Option<TextView<'a>> {
    let letters = same(text.letters())?;
    let marks = same(text.marks())?;
    TextView::over(
        letters,
        marks,
        text.starts(),
        text.samples(),
        used,
        text.first(),
        text.step(),
    )
}

#[test]
fn other_numbers_of_used_bytes_are_refused(rt: HostRuntime) -> Result<(), Fail> {
    let Some(text) = TextView::open(banana().as_slice()) else {
        assert!(rt; false, "not opened");
        return Ok(());
    };
    let used = [0u64, 0x4006_0000_0000, 0, 0, 0];
    for len in 0..6usize {
        let opened = with_used(&text, &used[..len.min(5)]);
        assert!(rt; opened.is_some() == (len == 0 || len == 4));
    }
    // One byte more or less is not as many as there are letters; another in place of one is.
    for bit in 0..256usize {
        let mut other = [0u64, 0x4006_0000_0000, 0, 0];
        other[bit / 64] ^= 1u64 << (bit % 64);
        let refused = match with_used(&text, other.as_slice()) {
            Some(view) => !view.check(),
            None => false,
        };
        assert!(rt; refused);
    }
    let moved = [0u64, 0x400a_0000_0000, 0, 0];
    let Some(text) = with_used(&text, moved.as_slice()) else {
        assert!(rt; false, "not opened");
        return Ok(());
    };
    let mut all = [0u8; 6];
    assert!(rt; text.check());
    assert!(rt; text.extract_bytes(0, all.as_mut_slice()) == Some(Answer::Found(6)));
    assert!(rt; all.as_slice() == b"canana".as_slice());
    Ok(())
}

/// The block of the index of a text of letters, or none where it has no size or is not written.
fn block_of(alloc: Global, letters: &[u64], kinds: u32) -> Result<Option<Vec<u64>>, Fail> {
    let index = TextIndex::build(alloc, letters, kinds, 32)?;
    let (parts, _letters, _marks) = index.parts();
    let Some(len) = size(letters.len(), parts.width(), kinds as usize, 32) else {
        return Ok(None);
    };
    let mut words = vec![in alloc; 7u64; len]?;
    match write(&index, words.as_mut_slice()) {
        Ok(()) => Ok(Some(words)),
        Err(_) => Ok(None),
    }
}

/// Whether a text is checked, is extracted as these bytes, and has each byte as often as these.
fn has_bytes(alloc: Global, text: &TextView<'_>, bytes: &[u8]) -> Result<bool, Fail> {
    let mut room = vec![in alloc; 7u8; bytes.len()]?;
    let whole = text.extract_bytes(0, room.as_mut_slice()) == Some(Answer::Found(bytes.len()));
    let mut right = whole && room.as_slice() == bytes && text.check();
    for byte in 0..=255u8 {
        let count = bytes.iter().filter(|it| **it == byte).count();
        right &= coded(text.count_bytes([byte].as_slice())) == count;
    }
    Ok(right)
}

/// Whether a text of letters that stand for these bytes is checked, is extracted as the bytes, and has each byte as
/// often as these.
fn is_held(
    alloc: Global,
    letters: &[u64],
    kinds: u32,
    used: &[u64],
    bytes: &[u8],
) -> Result<bool, Fail> {
    let Some(words) = block_of(alloc, letters, kinds)? else {
        return Ok(false);
    };
    let Some(numbers) = TextView::open_checked(words.as_slice()) else {
        return Ok(false);
    };
    match with_used(&numbers, used) {
        Some(text) => has_bytes(alloc, &text, bytes),
        None => Ok(false),
    }
}

/// The letters 255 down to 0.
fn letters() -> [u64; 256] {
    let mut letters = [0u64; 256];
    for byte in 0..256usize {
        letters[byte] = 255 - byte as u64;
    }
    letters
}

/// The bytes 255 down to 0.
fn bytes() -> [u8; 256] {
    let mut bytes = [0u8; 256];
    for byte in 0..256usize {
        bytes[byte] = 255 - byte as u8;
    }
    bytes
}

#[test]
fn all_bytes_are_held(rt: HostRuntime) -> Result<(), Fail> {
    let (letters, bytes, all) = (letters(), bytes(), [u64::MAX; 4]);
    assert!(rt;
        is_held(
            rt.alloc(),
            letters.as_slice(),
            256,
            all.as_slice(),
            bytes.as_slice()
        )?
    );
    // Letters that are numbers are their own bytes.
    assert!(rt;
        is_held(
            rt.alloc(),
            letters.as_slice(),
            256,
            [].as_slice(),
            bytes.as_slice()
        )?
    );
    Ok(())
}

#[test]
fn one_byte_and_none_are_held(rt: HostRuntime) -> Result<(), Fail> {
    let (three, last, none) = ([0u64; 3], [0u64, 0, 0, 1 << 63], [0u64; 4]);
    assert!(rt;
        is_held(
            rt.alloc(),
            three.as_slice(),
            1,
            last.as_slice(),
            [255u8; 3].as_slice()
        )?
    );
    assert!(rt; is_held(rt.alloc(), [].as_slice(), 0, none.as_slice(), [].as_slice())?);
    Ok(())
}

#[test]
fn a_letter_without_a_byte_is_wrong(rt: HostRuntime) -> Result<(), Fail> {
    let Some(text) = TextView::open(banana().as_slice()) else {
        assert!(rt; false, "not opened");
        return Ok(());
    };
    let two = [0u64, 0x0006_0000_0000, 0, 0];
    let Some(text) = with_used(&text, two.as_slice()) else {
        assert!(rt; false, "not opened");
        return Ok(());
    };
    let mut some = [0u8; 2];
    assert!(rt; text.extract_bytes(0, some.as_mut_slice()) == Some(Answer::Found(2)));
    assert!(rt; some.as_slice() == b"ba".as_slice());
    assert!(rt; text.extract_bytes(1, some.as_mut_slice()) == Some(Answer::Wrong));
    Ok(())
}

#[test]
fn sets_have_the_bytes_of_a_text(rt: HostRuntime) -> Result<(), Fail> {
    let set = ByteSet::of(b"banana".as_slice());
    assert!(rt; set.words == [0u64, 0x4006_0000_0000, 0, 0]);
    assert!(rt; set.len() == 3 && set.width() == 2);
    let mut codes = [7u8; 256];
    set.write_codes(codes.as_mut_slice());
    assert!(rt; codes[0] == 0 && codes[0x60] == 0 && codes[0x63] == 2 && codes[255] == 3);
    assert!(rt; codes[0x61] == 0 && codes[0x62] == 1 && codes[0x6e] == 2);
    let letters = MappedBytes {
        bytes: b"nab".as_slice(),
        codes: &codes,
    };
    assert!(rt; letters.len() == 3);
    assert!(rt;
        letters.letter_at(0) == 2 && letters.letter_at(1) == 0 && letters.letter_at(2) == 1
    );
    let none = ByteSet::of(b"".as_slice());
    assert!(rt; none.words == [0u64; 4] && none.len() == 0 && none.width() == 1);
    let ends = ByteSet::of(b"\xff\x00\x40\xff".as_slice());
    assert!(rt; ends.words == [1u64, 1, 0, 1 << 63] && ends.len() == 3);
    Ok(())
}
