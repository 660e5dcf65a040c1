//! The block of a trie with hints, without them, and with wrong ones.
use crate::tries::tries::{TRIE, answers, are_within};
use std::process::Abort;
use std::test::Fail;
use tree_block::trie::TrieView;

#[test]
fn a_block_without_hints_answers_too(rt: HostRuntime) -> Result<(), Fail> {
    let mut words = TRIE;
    // header and directory of five sections, by the same program
    words[2] = 0x0000000000000280;
    words[11] = 5;
    words[14] = 0xf40413d8b3c50547;
    words[15] = 0xd11a9df9687ebcec;
    words[36] = 0;
    words[37] = 0;
    words[38] = 0;
    words[39] = 0;
    let Some(trie) = TrieView::open_checked(&words.as_slice()[..80]) else {
        assert!(rt; false, "not opened");
        return Ok(());
    };
    assert!(rt; trie.tree().hints().len() == 0);
    let Some(other) = TrieView::open(TRIE.as_slice()) else {
        assert!(rt; false, "not opened");
        return Ok(());
    };
    assert!(rt; other.tree().hints().len() == 2);
    assert!(rt; answers(&trie) == answers(&other));
    Ok(())
}

#[test]
fn wrong_hints_are_seen_by_check(rt: HostRuntime) -> Result<(), Fail> {
    let mut words = TRIE;
    words[80] ^= 1;
    let Some(trie) = TrieView::open(words.as_slice()) else {
        assert!(rt; false, "not opened");
        return Ok(());
    };
    assert!(rt; !trie.check());
    assert!(rt; are_within(answers(&trie).as_slice()));
    Ok(())
}
