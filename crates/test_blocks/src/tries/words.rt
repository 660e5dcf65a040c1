//! The trie of a few words, beside one that was drawn by hand.
use std::process::Abort;
use std::test::Fail;
use tree_block::trie::{Answer, TrieView, size};
use tree_block::words::{WordsError, build, grow, nodes};

/// The words: none, a, ab, abc, b, bca, bcd and c. Level by level their trie has the nodes: the root; a, b, c; ab, bc;
/// abc, bca, bcd.
const BYTES: [u8; 14] = [97, 97, 98, 97, 98, 99, 98, 98, 99, 97, 98, 99, 100, 99];

const STARTS: [usize; 9] = [0, 0, 1, 3, 6, 7, 10, 13, 14];

const DEGREES: [usize; 9] = [3, 1, 1, 0, 1, 2, 0, 0, 0];

const LABELS: [u64; 8] = [97, 98, 99, 98, 99, 99, 97, 100];

const PARENTS: [usize; 8] = [0, 0, 0, 1, 2, 4, 5, 5];
/// A word ends at each node but bc, node 5.
const ENDS: u64 = 0b1_1101_1111;

#[test]
fn a_trie_is_grown_of_its_words(rt: HostRuntime) -> Result<(), Fail> {
    assert!(rt; nodes(BYTES.as_slice(), STARTS.as_slice()) == Ok(9));
    let mut degrees = [7usize; 9];
    let mut labels = [7u64; 8];
    let mut ends = [7u64; 1];
    let mut parents = [7usize; 8];
    assert!(rt;
        grow(
            BYTES.as_slice(),
            STARTS.as_slice(),
            degrees.as_mut_slice(),
            labels.as_mut_slice(),
            ends.as_mut_slice(),
            parents.as_mut_slice()
        )
        .is_ok()
    );
    assert!(rt; degrees == DEGREES);
    assert!(rt; labels == LABELS);
    assert!(rt; ends == [ENDS]);
    assert!(rt; parents == PARENTS);
    Ok(())
}

/// The node that was found and whether a word ends there, as twice the node and 1 or 0, or 1000 for `Absent`, 1001 for
/// `Wrong`.
fn coded(trie: &TrieView<'_>, word: &[u8]) -> usize {
    match trie.find(word) {
        Answer::Found(node) => match trie.is_end(node) {
            Answer::Found(end) => node.wrapping_mul(2).wrapping_add(end as usize),
            _ => 1001,
        },
        Answer::Absent => 1000,
        Answer::Wrong => 1001,
    }
}

#[test]
fn a_block_of_words_finds_them(rt: HostRuntime) -> Result<(), Fail> {
    let mut scratch = [7u64; 26];
    let mut block = [7u64; 88];
    assert!(rt; size(9, 8, true) == Some(88));
    assert!(rt;
        build(
            BYTES.as_slice(),
            STARTS.as_slice(),
            scratch.as_mut_slice(),
            block.as_mut_slice()
        )
        .is_ok()
    );
    let Some(trie) = TrieView::open_checked(block.as_slice()) else {
        assert!(rt; false, "not opened");
        return Ok(());
    };
    assert!(rt; trie.len() == 9 && trie.width() == 8);
    assert!(rt; coded(&trie, b"".as_slice()) == 1);
    assert!(rt; coded(&trie, b"a".as_slice()) == 3);
    assert!(rt; coded(&trie, b"ab".as_slice()) == 9);
    assert!(rt; coded(&trie, b"abc".as_slice()) == 13);
    assert!(rt; coded(&trie, b"b".as_slice()) == 5);
    assert!(rt; coded(&trie, b"bca".as_slice()) == 15);
    assert!(rt; coded(&trie, b"bcd".as_slice()) == 17);
    assert!(rt; coded(&trie, b"c".as_slice()) == 7);
    // the beginning of two words, and no words
    assert!(rt; coded(&trie, b"bc".as_slice()) == 10);
    assert!(rt; coded(&trie, b"bcb".as_slice()) == 1000);
    assert!(rt; coded(&trie, b"ca".as_slice()) == 1000);
    Ok(())
}

#[test]
fn one_word_and_none_are_tries(rt: HostRuntime) -> Result<(), Fail> {
    // no words: the root alone
    assert!(rt; nodes(b"".as_slice(), [0usize].as_slice()) == Ok(1));
    // the words may begin after the first byte, and need not take all
    assert!(rt; nodes(b"xab".as_slice(), [1usize, 2].as_slice()) == Ok(2));
    // the empty word ends at the root
    let mut degrees = [7usize; 1];
    let mut ends = [7u64; 1];
    assert!(rt;
        grow(
            b"".as_slice(),
            [0usize, 0].as_slice(),
            degrees.as_mut_slice(),
            [0u64; 0].as_mut_slice(),
            ends.as_mut_slice(),
            [0usize; 0].as_mut_slice()
        )
        .is_ok()
    );
    assert!(rt; degrees == [0] && ends == [1]);
    Ok(())
}

#[test]
fn what_are_no_sorted_words_is_refused(rt: HostRuntime) -> Result<(), Fail> {
    let bytes = b"abab".as_slice();
    assert!(rt; nodes(bytes, [0usize; 0].as_slice()) == Err(WordsError::NotWords));
    assert!(rt; nodes(bytes, [0usize, 2, 1].as_slice()) == Err(WordsError::NotWords));
    assert!(rt; nodes(bytes, [0usize, 5].as_slice()) == Err(WordsError::NotWords));
    // ab twice, b and a, ab and a, and none twice
    assert!(rt; nodes(bytes, [0usize, 2, 4].as_slice()) == Err(WordsError::NotSorted));
    assert!(rt; nodes(bytes, [1usize, 2, 3].as_slice()) == Err(WordsError::NotSorted));
    assert!(rt; nodes(bytes, [0usize, 2, 3].as_slice()) == Err(WordsError::NotSorted));
    assert!(rt; nodes(bytes, [2usize, 2, 2].as_slice()) == Err(WordsError::NotSorted));
    // whatever the words are, a wrong length comes first: b and a would have three nodes
    let starts = [1usize, 2, 3];
    let starts = starts.as_slice();
    let mut scratch = [7u64; 8];
    let mut words = [7u64; 88];
    let (room, block) = (scratch.as_mut_slice(), words.as_mut_slice());
    assert!(rt; build(bytes, starts, &mut *room, &mut *block) == Err(WordsError::NotSorted));
    assert!(rt; build(bytes, starts, &mut room[..7], &mut *block) == Err(WordsError::WrongLength));
    assert!(rt; build(bytes, starts, &mut *room, &mut block[..80]) == Err(WordsError::WrongLength));
    let starts = [0usize, 5];
    let refused = build(bytes, starts.as_slice(), &mut room[..7], &mut *block);
    assert!(rt; refused == Err(WordsError::NotWords));
    assert!(rt; words == [7u64; 88]);
    Ok(())
}

#[test]
fn another_length_is_refused(rt: HostRuntime) -> Result<(), Fail> {
    let bytes = b"ab".as_slice();
    let starts = [0usize, 1, 2];
    for len in [0usize, 1, 2, 4] {
        let mut degrees = [7usize; 4];
        let mut ends = [7u64; 1];
        let refused = grow(
            bytes,
            starts.as_slice(),
            &mut degrees.as_mut_slice()[..len],
            [7u64; 2].as_mut_slice(),
            ends.as_mut_slice(),
            [7usize; 2].as_mut_slice(),
        );
        assert!(rt; refused == Err(WordsError::WrongLength));
        assert!(rt; degrees == [7; 4] && ends == [7]);
    }
    Ok(())
}
