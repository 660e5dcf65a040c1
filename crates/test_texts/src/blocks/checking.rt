//! Blocks that are checked: the blocks of a program in Python are accepted, and changed ones refused.
use crate::blocks::banana::banana;
use crate::blocks::empty::empty;
use crate::blocks::mississippi::mississippi;
use crate::blocks::texts::small_text;
use bitm_block::checksum_of;
use std::process::Abort;
use std::test::Fail;
use text_block::TextView;

/// Whether a block is opened, and its parts checked.
fn is_accepted(words: &[u64]) -> bool {
    TextView::open_checked(words).is_some()
}

/// How many blocks with one byte changed are accepted: each bit of it flipped, and all of them.
fn accepted(words: &mut [u64]) -> usize {
    let mut accepted = 0usize;
    for i in 0..words.len() {
        for byte in 0..8u32 {
            for change in [1u64, 2, 4, 8, 16, 32, 64, 128, 255] {
                words[i] ^= change << (8 * byte);
                accepted = accepted.wrapping_add(is_accepted(&*words) as usize);
                words[i] ^= change << (8 * byte);
            }
        }
    }
    accepted
}

#[test]
fn blocks_of_texts_are_accepted(rt: HostRuntime) -> Result<(), Fail> {
    assert!(rt; is_accepted(empty().as_slice()));
    assert!(rt; is_accepted(small_text().as_slice()));
    assert!(rt; is_accepted(mississippi().as_slice()));
    assert!(rt; is_accepted(banana().as_slice()));
    Ok(())
}

#[test]
fn each_changed_byte_is_refused(rt: HostRuntime) -> Result<(), Fail> {
    let mut words = *small_text();
    assert!(rt; is_accepted(words.as_slice()));
    assert!(rt; accepted(words.as_mut_slice()) == 0);
    Ok(())
}

/// Writes the checksums of a block with thirteen sections anew.
fn seal_anew(words: &mut [u64; 168]) {
    for i in 0..13usize {
        let at = (words[17 + 4 * i] / 8) as usize;
        let count = words[18 + 4 * i] as usize;
        if at <= 168 && count <= 168 - at {
            words[19 + 4 * i] = checksum_of(&words[at..at + count]);
        }
    }
    words[14] = checksum_of(&words[16..72]);
    words[15] = checksum_of(&words[..15]);
}

/// How many blocks with one of eight bits of a word flipped are accepted, with right checksums.
fn accepted_anew(words: &[u64; 168], from: usize, to: usize) -> usize {
    let mut accepted = 0usize;
    for i in from..to.min(168) {
        for bit in [0u32, 1, 2, 5, 31, 32, 33, 63] {
            let mut changed = *words;
            changed[i] ^= 1u64 << bit;
            seal_anew(&mut changed);
            accepted = accepted.wrapping_add(is_accepted(changed.as_slice()) as usize);
        }
    }
    accepted
}

#[test]
fn no_other_bits_hold_an_index(rt: HostRuntime) -> Result<(), Fail> {
    let mut same = *mississippi();
    seal_anew(&mut same);
    assert!(rt; same == *mississippi());
    assert!(rt; accepted_anew(small_text(), 8, 10) == 0);
    assert!(rt; accepted_anew(small_text(), 72, 168) == 0);
    assert!(rt; accepted_anew(mississippi(), 8, 10) == 0);
    assert!(rt; accepted_anew(mississippi(), 72, 168) == 0);
    Ok(())
}

#[test]
fn no_prefix_is_accepted(rt: HostRuntime) -> Result<(), Fail> {
    let mut opened = 0usize;
    for len in 0..168usize {
        opened = opened.wrapping_add(is_accepted(&small_text()[..len]) as usize);
    }
    assert!(rt; opened == 0);
    Ok(())
}
