//! The block of a small tree: its words, its answers, and the answers of other words in its place.
use bitm_block::{Block, checksum_of};
use std::process::Abort;
use std::test::Fail;
use tree_block::{Answer, BuildError, LoudsView, build, size};

/// The block of the tree of the degrees 2, 0, 1, 0, as a program in Python made it from the tables of docs/FORMAT.md.
const TREE: [u64; 64] = [
    0x046261746d746962,
    0x0000000000000007,
    0x0000000000000200,
    0x0000000000000004,
    0x0000000000000000,
    0x0000000000000000,
    0x0000000000000000,
    0x0000000000000000,
    0x0000000000000000,
    0x0000000000000000,
    0x0000000000000000,
    0x0000000000000004,
    0x0000000000000000,
    0x0000000000000000,
    0xfa1f4f046564eb1f,
    0x7802ddbe31117626,
    0x0000000000000001,
    0x0000000000000100,
    0x0000000000000001,
    0xd2d2ed26aa6d69ac,
    0x0000000000000002,
    0x0000000000000140,
    0x0000000000000001,
    0xa37da37158bd2c5f,
    0x0000000000000003,
    0x0000000000000180,
    0x0000000000000001,
    0xbe90b554423902f2,
    0x0000000000000016,
    0x00000000000001c0,
    0x0000000000000002,
    0x2870b15f95c54a72,
    0x000000000000004d,
    0x0000000000000000,
    0x0000000000000000,
    0x0000000000000000,
    0x0000000000000000,
    0x0000000000000000,
    0x0000000000000000,
    0x0000000000000000,
    0x0000000000000000,
    0x0000000000000000,
    0x0000000000000000,
    0x0000000000000000,
    0x0000000000000000,
    0x0000000000000000,
    0x0000000000000000,
    0x0000000000000000,
    0x0100200400000000,
    0x0000000000000000,
    0x0000000000000000,
    0x0000000000000000,
    0x0000000000000000,
    0x0000000000000000,
    0x0000000000000000,
    0x0000000000000000,
    0xffffffff00000000,
    0xffffffff00000001,
    0x0000000000000000,
    0x0000000000000000,
    0x0000000000000000,
    0x0000000000000000,
    0x0000000000000000,
    0x0000000000000000,
];

/// The number that was found, or 100 for `Absent`, 101 for `Wrong`.
fn coded(answer: Answer<usize>) -> usize {
    match answer {
        Answer::Found(number) => number,
        Answer::Absent => 100,
        Answer::Wrong => 101,
    }
}

/// The parents, degrees and children of the four nodes and of one more.
fn answers(tree: &LoudsView<'_>) -> [usize; 20] {
    let mut all = [0usize; 20];
    for node in 0..5usize {
        all[node] = coded(tree.parent(node));
        all[node + 5] = coded(tree.degree(node));
        all[node + 10] = coded(tree.child(node, 0));
        all[node + 15] = coded(tree.child(node, 1));
    }
    all
}

/// Whether each parent is before its node, and each child after it and one of the four nodes.
fn are_within(all: &[usize]) -> bool {
    let mut within = all.len() == 20;
    for node in 0..5usize {
        if all.len() == 20 {
            within &= all[node] >= 100 || all[node] < node;
            within &= all[node + 5] >= 100 || all[node + 5] < 4;
            within &= all[node + 10] >= 100 || (all[node + 10] > node && all[node + 10] < 4);
            within &= all[node + 15] >= 100 || (all[node + 15] > node && all[node + 15] < 4);
        }
    }
    within
}

/// How many flipped bits of the sections are not seen by `check`, or give an answer that is not within the tree.
fn unseen_flips(words: &mut [u64]) -> usize {
    let mut unseen = 0usize;
    for i in 32..words.len() {
        for bit in 0..64u32 {
            words[i] ^= 1u64 << bit;
            if let Some(tree) = LoudsView::open(&*words) {
                let whole = i == 32 || i == 40 || i == 48 || i == 56 || i == 57;
                unseen = unseen.wrapping_add((whole && tree.check()) as usize);
                unseen = unseen.wrapping_add(!are_within(answers(&tree).as_slice()) as usize);
            }
            words[i] ^= 1u64 << bit;
        }
    }
    unseen
}

#[test]
fn a_tree_is_written_and_answers(rt: HostRuntime) -> Result<(), Fail> {
    assert!(rt; size(4) == 64);
    let mut block = [0x5555_5555_5555_5555u64; 64];
    assert!(rt; build([2usize, 0, 1, 0].as_slice(), block.as_mut_slice()).is_ok());
    assert!(rt; block == TREE);
    let Some(tree) = LoudsView::open(block.as_slice()) else {
        assert!(rt; false, "not opened");
        return Ok(());
    };
    assert!(rt; tree.check());
    assert!(rt;
        answers(&tree)
            == [
                100, 0, 0, 2, 100, 2, 0, 1, 0, 100, 1, 100, 3, 100, 100, 2, 100, 100, 100, 100,
            ]
    );
    Ok(())
}

#[test]
fn a_block_without_hints_answers_too(rt: HostRuntime) -> Result<(), Fail> {
    let mut words = TREE;
    // header and directory of three sections, by the same program
    words[2] = 0x00000000000001c0;
    words[11] = 3;
    words[14] = 0x4103fd2025a43db0;
    words[15] = 0xe46082c1e6b70515;
    words[28] = 0;
    words[29] = 0;
    words[30] = 0;
    words[31] = 0;
    let Some(tree) = LoudsView::open_checked(&words.as_slice()[..56]) else {
        assert!(rt; false, "not opened");
        return Ok(());
    };
    assert!(rt; tree.hints().len() == 0);
    let Some(other) = LoudsView::open(TREE.as_slice()) else {
        assert!(rt; false, "not opened");
        return Ok(());
    };
    assert!(rt; other.hints().len() == 2);
    assert!(rt; answers(&tree) == answers(&other));
    Ok(())
}

#[test]
fn hints_are_none_or_as_many_as_they_take(rt: HostRuntime) -> Result<(), Fail> {
    let Some(tree) = LoudsView::open(TREE.as_slice()) else {
        assert!(rt; false, "not opened");
        return Ok(());
    };
    let hints = [0u64; 3];
    for len in 0..4usize {
        let some = LoudsView::over(
            4,
            tree.words(),
            tree.upper(),
            tree.lower(),
            &hints.as_slice()[..len],
        );
        assert!(rt; some.is_some() == (len == 0 || len == 2));
    }
    Ok(())
}

/// Whether each node of a path has the one before it as its parent, and the one after it as its only child.
fn is_path(tree: &LoudsView<'_>, nodes: usize) -> bool {
    let mut path = tree.len() == nodes;
    for node in 1..nodes {
        path &= matches!(tree.parent(node), Answer::Found(parent) if parent == node - 1);
        path &= matches!(tree.child(node - 1, 0), Answer::Found(child) if child == node);
        path &= matches!(tree.degree(node - 1), Answer::Found(degree) if degree == 1);
    }
    path
}

#[test]
fn a_path_answers_across_its_hints(rt: HostRuntime) -> Result<(), Fail> {
    let mut degrees = [1usize; 300];
    degrees[299] = 0;
    let mut block = [0u64; 72];
    assert!(rt; build(degrees.as_slice(), block.as_mut_slice()).is_ok());
    let Some(tree) = LoudsView::open_checked(block.as_slice()) else {
        assert!(rt; false, "not opened");
        return Ok(());
    };
    // two words for 300 1 bits, and two for the 340 0 bits of ten words
    assert!(rt; tree.hints().len() == 4);
    assert!(rt; is_path(&tree, 300));
    let Some(bare) = LoudsView::over(300, tree.words(), tree.upper(), tree.lower(), &[]) else {
        assert!(rt; false, "not taken");
        return Ok(());
    };
    assert!(rt; bare.check() && is_path(&bare, 300));
    Ok(())
}

#[test]
fn each_flipped_bit_of_a_tree_is_seen_by_check(rt: HostRuntime) -> Result<(), Fail> {
    let mut words = TREE;
    assert!(rt; unseen_flips(words.as_mut_slice()) == 0);
    Ok(())
}

#[test]
fn another_kind_is_no_tree(rt: HostRuntime) -> Result<(), Fail> {
    let mut words = TREE;
    words[1] = 2;
    words[15] = checksum_of(&words.as_slice()[..15]);
    assert!(rt; Block::open(words.as_slice()).is_ok());
    assert!(rt; LoudsView::open(words.as_slice()).is_none());
    let mut words = TREE;
    words[3] = 100;
    words[15] = checksum_of(&words.as_slice()[..15]);
    assert!(rt; Block::open(words.as_slice()).is_ok());
    assert!(rt; LoudsView::open(words.as_slice()).is_none());
    Ok(())
}

#[test]
fn no_tree_is_written_where_there_is_none(rt: HostRuntime) -> Result<(), Fail> {
    let mut words = [7u64; 64];
    assert!(rt; build([1usize, 1].as_slice(), words.as_mut_slice()) == Err(BuildError::NotATree));
    assert!(rt;
        build(
            [2usize, 0, 1, 0].as_slice(),
            &mut words.as_mut_slice()[..40]
        ) == Err(BuildError::WrongLength)
    );
    assert!(rt; words == [7u64; 64]);
    Ok(())
}

#[test]
fn a_wrong_length_is_reported_before_degrees_of_no_tree(rt: HostRuntime) -> Result<(), Fail> {
    let mut words = [7u64; 40];
    assert!(rt;
        build([1usize, 1].as_slice(), words.as_mut_slice()) == Err(BuildError::WrongLength)
    );
    assert!(rt; words == [7u64; 40]);
    Ok(())
}
