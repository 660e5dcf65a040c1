//! The block of a small trie: its words, its answers, and the answers of other words in its place.
use bitm_block::{Block, checksum_of};
use std::process::Abort;
use std::test::Fail;
use tree_block::trie::{Answer, BuildError, TrieView, build, size};

/// The block of the words a, b and be, as a program in Python made it from the tables of docs/FORMAT.md: the tree of
/// the degrees 2, 0, 1, 0, labels of eight bits, and an end at each node but the root.
pub(crate) const TRIE: [u64; 88] = [
    0x046261746d746962,
    0x0000000000000009,
    0x00000000000002c0,
    0x0000000000000004,
    0x0000000000000008,
    0x0000000000000000,
    0x0000000000000000,
    0x0000000000000000,
    0x0000000000000000,
    0x0000000000000000,
    0x0000000000000000,
    0x0000000000000006,
    0x0000000000000000,
    0x0000000000000000,
    0x34d8545cbbf7289b,
    0xd80f5fc2310b4c29,
    0x0000000000000001,
    0x0000000000000140,
    0x0000000000000001,
    0xd2d2ed26aa6d69ac,
    0x0000000000000002,
    0x0000000000000180,
    0x0000000000000001,
    0xa37da37158bd2c5f,
    0x0000000000000003,
    0x00000000000001c0,
    0x0000000000000001,
    0xbe90b554423902f2,
    0x0000000000000011,
    0x0000000000000200,
    0x0000000000000001,
    0x0119d2c400af308f,
    0x0000000000000012,
    0x0000000000000240,
    0x0000000000000001,
    0x3acc325e5809a243,
    0x0000000000000016,
    0x0000000000000280,
    0x0000000000000002,
    0x2870b15f95c54a72,
    0x000000000000004d,
    0x0000000000000000,
    0x0000000000000000,
    0x0000000000000000,
    0x0000000000000000,
    0x0000000000000000,
    0x0000000000000000,
    0x0000000000000000,
    0x0000000000000000,
    0x0000000000000000,
    0x0000000000000000,
    0x0000000000000000,
    0x0000000000000000,
    0x0000000000000000,
    0x0000000000000000,
    0x0000000000000000,
    0x0100200400000000,
    0x0000000000000000,
    0x0000000000000000,
    0x0000000000000000,
    0x0000000000000000,
    0x0000000000000000,
    0x0000000000000000,
    0x0000000000000000,
    0x0000000000656261,
    0x0000000000000000,
    0x0000000000000000,
    0x0000000000000000,
    0x0000000000000000,
    0x0000000000000000,
    0x0000000000000000,
    0x0000000000000000,
    0x000000000000000e,
    0x0000000000000000,
    0x0000000000000000,
    0x0000000000000000,
    0x0000000000000000,
    0x0000000000000000,
    0x0000000000000000,
    0x0000000000000000,
    0xffffffff00000000,
    0xffffffff00000001,
    0x0000000000000000,
    0x0000000000000000,
    0x0000000000000000,
    0x0000000000000000,
    0x0000000000000000,
    0x0000000000000000,
];

/// The number that was found, or 1000 for `Absent`, 1001 for `Wrong`.
fn coded(answer: Answer<usize>) -> usize {
    match answer {
        Answer::Found(number) => number,
        Answer::Absent => 1000,
        Answer::Wrong => 1001,
    }
}

/// The label that was found, or 1000 for `Absent`, 1001 for `Wrong`.
fn coded_label(answer: Answer<u64>) -> usize {
    match answer {
        Answer::Found(label) => label as usize,
        Answer::Absent => 1000,
        Answer::Wrong => 1001,
    }
}

/// 1 or 0 as a bit was found, or 1000 for `Absent`, 1001 for `Wrong`.
fn coded_end(answer: Answer<bool>) -> usize {
    match answer {
        Answer::Found(end) => end as usize,
        Answer::Absent => 1000,
        Answer::Wrong => 1001,
    }
}

/// The label, the end and the children by four labels of the four nodes and of one more.
pub(crate) fn answers(trie: &TrieView<'_>) -> [usize; 30] {
    let mut all = [0usize; 30];
    for node in 0..5usize {
        all[node] = coded_label(trie.label(node));
        all[node + 5] = coded_end(trie.is_end(node));
        all[node + 10] = coded(trie.child_by_label(node, 97));
        all[node + 15] = coded(trie.child_by_label(node, 98));
        all[node + 20] = coded(trie.child_by_label(node, 101));
        all[node + 25] = coded(trie.child_by_label(node, 96));
    }
    all
}

/// Whether each child is after its node, and one of the four.
pub(crate) fn are_within(all: &[usize]) -> bool {
    let mut within = all.len() == 30;
    for i in 0..20usize {
        if all.len() == 30 {
            let child = all[i + 10];
            within &= child >= 1000 || (child > i % 5 && child < 4);
        }
    }
    within
}

/// How many flipped bits are not seen by `open_checked`, or give an answer that is not within the trie.
fn unseen_flips(words: &mut [u64]) -> usize {
    let mut unseen = 0usize;
    for i in 0..words.len() {
        for bit in 0..64u32 {
            words[i] ^= 1u64 << bit;
            unseen = unseen.wrapping_add(TrieView::open_checked(&*words).is_some() as usize);
            if let Some(trie) = TrieView::open(&*words) {
                unseen = unseen.wrapping_add(!are_within(answers(&trie).as_slice()) as usize);
                let found = coded(trie.find([98u64, 101].as_slice()));
                unseen = unseen.wrapping_add((found < 1000 && found >= 4) as usize);
                let labels = coded(trie.word(3, [0u64; 4].as_mut_slice()));
                unseen = unseen.wrapping_add((labels < 1000 && labels > 3) as usize);
            }
            words[i] ^= 1u64 << bit;
        }
    }
    unseen
}

#[test]
fn a_trie_is_written_and_answers(rt: HostRuntime) -> Result<(), Fail> {
    assert!(rt; size(4, 8, true) == Some(88));
    assert!(rt; size(4, 64, true).is_none());
    let mut block = [0x5555_5555_5555_5555u64; 88];
    assert!(rt;
        build(
            [2usize, 0, 1, 0].as_slice(),
            [97u64, 98, 101].as_slice(),
            8,
            [0b1110u64].as_slice(),
            block.as_mut_slice()
        )
        .is_ok()
    );
    assert!(rt; block == TRIE);
    let Some(trie) = TrieView::open_checked(block.as_slice()) else {
        assert!(rt; false, "not opened");
        return Ok(());
    };
    assert!(rt; trie.len() == 4 && trie.width() == 8);
    assert!(rt; coded(trie.tree().parent(3)) == 2);
    assert!(rt;
        answers(&trie)
            == [
                1000, 97, 98, 101, 1000, 0, 1, 1, 1, 1000, 1, 1000, 1000, 1000, 1000, 2, 1000,
                1000, 1000, 1000, 1000, 1000, 3, 1000, 1000, 1000, 1000, 1000, 1000, 1000,
            ]
    );
    Ok(())
}

#[test]
fn words_lead_to_their_nodes(rt: HostRuntime) -> Result<(), Fail> {
    let words = TRIE;
    let Some(trie) = TrieView::open(words.as_slice()) else {
        assert!(rt; false, "not opened");
        return Ok(());
    };
    assert!(rt; coded(trie.find([0u64; 0].as_slice())) == 0);
    assert!(rt; coded(trie.find([97u64].as_slice())) == 1);
    assert!(rt; coded(trie.find([98u64].as_slice())) == 2);
    assert!(rt; coded(trie.find([98u64, 101].as_slice())) == 3);
    assert!(rt; coded(trie.find([97u64, 101].as_slice())) == 1000);
    assert!(rt; coded(trie.find([98u64, 101, 97].as_slice())) == 1000);
    assert!(rt; coded(trie.find([99u64].as_slice())) == 1000);
    Ok(())
}

/// The node and the number of labels that were found, as 10 times the node and that number, or 1001 for `Wrong`.
fn coded_longest(answer: Answer<(usize, usize)>) -> usize {
    match answer {
        Answer::Found((node, matched)) => node.wrapping_mul(10).wrapping_add(matched),
        Answer::Absent => 1000,
        Answer::Wrong => 1001,
    }
}

#[test]
fn beginnings_of_words_lead_to_the_deepest_nodes(rt: HostRuntime) -> Result<(), Fail> {
    let words = TRIE;
    let Some(trie) = TrieView::open(words.as_slice()) else {
        assert!(rt; false, "not opened");
        return Ok(());
    };
    assert!(rt; coded(trie.find(b"be".as_slice())) == 3);
    assert!(rt; coded(trie.find(b"ab".as_slice())) == 1000);
    assert!(rt; coded_longest(trie.longest(b"be".as_slice())) == 32);
    assert!(rt; coded_longest(trie.longest(b"bee".as_slice())) == 32);
    assert!(rt; coded_longest(trie.longest(b"bat".as_slice())) == 21);
    assert!(rt; coded_longest(trie.longest([97u64, 1 << 63].as_slice())) == 11);
    assert!(rt; coded_longest(trie.longest(b"".as_slice())) == 0);
    Ok(())
}

#[test]
fn nodes_have_their_words(rt: HostRuntime) -> Result<(), Fail> {
    let words = TRIE;
    let Some(trie) = TrieView::open(words.as_slice()) else {
        assert!(rt; false, "not opened");
        return Ok(());
    };
    let mut out = [7u64; 4];
    assert!(rt; coded(trie.word(3, out.as_mut_slice())) == 2);
    assert!(rt; out == [7, 7, 98, 101]);
    let mut out = [7u64; 4];
    assert!(rt; coded(trie.word(1, out.as_mut_slice())) == 1);
    assert!(rt; out == [7, 7, 7, 97]);
    assert!(rt; coded(trie.word(0, out.as_mut_slice())) == 0);
    assert!(rt; coded(trie.word(4, out.as_mut_slice())) == 1000);
    assert!(rt; out == [7, 7, 7, 97]);
    // without room for all labels there is still their number
    assert!(rt; coded(trie.word(3, &mut out.as_mut_slice()[..1])) == 2);
    Ok(())
}

#[test]
fn each_flipped_bit_of_a_trie_is_seen(rt: HostRuntime) -> Result<(), Fail> {
    let mut words = TRIE;
    assert!(rt; unseen_flips(words.as_mut_slice()) == 0);
    Ok(())
}

#[test]
fn labels_that_do_not_rise_are_seen_by_check(rt: HostRuntime) -> Result<(), Fail> {
    let mut words = TRIE;
    words[64] = 0x65_6161;
    let Some(trie) = TrieView::open(words.as_slice()) else {
        assert!(rt; false, "not opened");
        return Ok(());
    };
    assert!(rt; !trie.check());
    assert!(rt; trie.tree().check());
    Ok(())
}

#[test]
fn each_length_cut_off_is_refused(rt: HostRuntime) -> Result<(), Fail> {
    let words = TRIE;
    for len in 0..88usize {
        assert!(rt; TrieView::open(&words.as_slice()[..len]).is_none());
    }
    Ok(())
}

#[test]
fn another_kind_or_length_is_no_trie(rt: HostRuntime) -> Result<(), Fail> {
    for at in [1usize, 3, 4] {
        let mut words = TRIE;
        words[at] = 100;
        words[15] = checksum_of(&words.as_slice()[..15]);
        assert!(rt; Block::open(words.as_slice()).is_ok());
        assert!(rt; TrieView::open(words.as_slice()).is_none());
    }
    Ok(())
}

/// What `build` says of these parts and of a block of the given length, which it does not write.
fn refused(
    degrees: &[usize],
    labels: &[u64],
    width: u8,
    ends: &[u64],
    len: usize,
) -> Option<BuildError> {
    let mut words = [7u64; 88];
    let words = words.as_mut_slice();
    if len > words.len() {
        return None;
    }
    let refused = match build(degrees, labels, width, ends, &mut words[..len]) {
        Ok(()) => return None,
        Err(error) => error,
    };
    for i in 0..words.len() {
        if words[i] != 7 {
            return None;
        }
    }
    Some(refused)
}

#[test]
fn no_trie_is_written_where_there_is_none(rt: HostRuntime) -> Result<(), Fail> {
    let degrees = [2usize, 0, 1, 0];
    let degrees = degrees.as_slice();
    let labels = [97u64, 98, 101];
    let labels = labels.as_slice();
    let ends = [14u64];
    let ends = ends.as_slice();
    assert!(rt; refused(degrees, labels, 0, ends, 88) == Some(BuildError::WrongWidth));
    assert!(rt; refused(degrees, labels, 64, ends, 88) == Some(BuildError::WrongWidth));
    let own = [1usize, 1];
    let own = own.as_slice();
    let label = [97u64];
    let label = label.as_slice();
    assert!(rt; refused(own, label, 8, ends, 88) == Some(BuildError::NotATree));
    assert!(rt; refused(degrees, labels, 6, ends, 88) == Some(BuildError::NotLabels));
    assert!(rt;
        refused(degrees, [97u64, 97, 1].as_slice(), 8, ends, 88) == Some(BuildError::NotLabels)
    );
    assert!(rt;
        refused(degrees, [97u64, 98].as_slice(), 8, ends, 88) == Some(BuildError::WrongLabels)
    );
    // whatever the degrees and the labels are, a wrong length comes first
    assert!(rt; refused(own, labels, 8, ends, 88) == Some(BuildError::WrongLabels));
    assert!(rt; refused(own, label, 8, [2u64, 0].as_slice(), 88) == Some(BuildError::WrongEnds));
    assert!(rt; refused(own, label, 8, ends, 87) == Some(BuildError::WrongLength));
    assert!(rt; refused(degrees, labels, 6, ends, 87) == Some(BuildError::WrongLength));
    assert!(rt;
        refused(degrees, labels, 8, [14u64, 0].as_slice(), 88) == Some(BuildError::WrongEnds)
    );
    assert!(rt; refused(degrees, labels, 8, ends, 87) == Some(BuildError::WrongLength));
    Ok(())
}
