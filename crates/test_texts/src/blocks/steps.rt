//! Blocks that are written in two steps: the order of the suffixes, worked out by hand, and the same words from it.

use crate::blocks::banana::banana;
use crate::blocks::mississippi::mississippi;
use std::process::Abort;
use std::test::Fail;
use text_block::making::{BuildError, build_ordered, build_ordered_bytes, order, order_bytes};

/// The letters of mississippi; i is 0, m 1, p 2 and s 3.
const LETTERS: [u8; 11] = [1, 0, 3, 3, 0, 3, 3, 0, 2, 2, 0];

/// Where its suffixes begin, in their order: the empty one, i, ippi, issippi, ississippi, ..
const ORDER: [u32; 12] = [11, 10, 7, 4, 1, 0, 9, 8, 6, 3, 5, 2];

#[test]
fn mississippi_is_built_from_its_order(rt: HostRuntime) -> Result<(), Fail> {
    let mut scratch = [9u32; 24];
    let mut words = [7u64; 168];
    let text = LETTERS.as_slice();
    assert!(rt; order(text, 4, scratch.as_mut_slice()) == Ok(()));
    assert!(rt; &scratch[..12] == ORDER.as_slice());
    assert!(rt; build_ordered(text, 4, 3, scratch.as_mut_slice(), words.as_mut_slice()) == Ok(()));
    assert!(rt; words == *mississippi());
    Ok(())
}

#[test]
fn another_order_is_refused(rt: HostRuntime) -> Result<(), Fail> {
    let mut scratch = [9u32; 24];
    let mut words = [7u64; 168];
    let text = LETTERS.as_slice();
    assert!(rt; order(text, 3, scratch.as_mut_slice()) == Err(BuildError::LetterOutside));
    assert!(rt; scratch == [9u32; 24]);
    assert!(rt; order(text, 4, scratch.as_mut_slice()) == Ok(()));
    scratch.swap(3, 4);
    let swapped = build_ordered(text, 4, 3, scratch.as_mut_slice(), words.as_mut_slice());
    assert!(rt; swapped == Err(BuildError::WrongOrder));
    scratch[0] = 12;
    let past = build_ordered(text, 4, 3, scratch.as_mut_slice(), words.as_mut_slice());
    assert!(rt; past == Err(BuildError::WrongOrder));
    let outside = build_ordered(text, 3, 3, scratch.as_mut_slice(), words.as_mut_slice());
    assert!(rt; outside == Err(BuildError::LetterOutside));
    assert!(rt; words == [7u64; 168]);
    Ok(())
}

#[test]
fn banana_is_built_from_its_order(rt: HostRuntime) -> Result<(), Fail> {
    let text = b"banana".as_slice();
    let mut scratch = [9u32; 14];
    let mut words = [7u64; 176];
    assert!(rt; order_bytes(text, &mut scratch[..13]) == Err(BuildError::WrongScratch));
    let unordered = build_ordered_bytes(text, 32, scratch.as_mut_slice(), words.as_mut_slice());
    assert!(rt; unordered == Err(BuildError::WrongOrder));
    assert!(rt; words == [7u64; 176]);
    assert!(rt; order_bytes(text, scratch.as_mut_slice()) == Ok(()));
    assert!(rt; scratch[..7] == [6, 5, 3, 1, 0, 4, 2]);
    assert!(rt;
        build_ordered_bytes(text, 32, scratch.as_mut_slice(), words.as_mut_slice()) == Ok(())
    );
    assert!(rt; words == *banana());
    Ok(())
}
