//! Blocks of each kind but perfect hashes.
use crate::kinds::saying::{expect_said, expect_said_of_block};
use program_files::blocks::{Kind, build};
use program_files::kinds::check;
use std::process::Abort;
use std::test::Fail;

/// Compares what is said of the block of the numbers in a text.
fn expect_numbers(
    rt: &(impl Abort + AllocGlobal),
    kind: Kind,
    text: &str,
    said: &str,
) -> Result<(), Fail> {
    let mut file = Vec::new(rt.alloc());
    build(rt.alloc(), kind, text.as_bytes(), &mut file)?;
    expect_said(rt, file.as_slice(), said)
}

#[test]
fn the_header_of_each_kind_of_numbers_is_said(rt: HostRuntime) -> Result<(), Fail> {
    let said = "kind bits\nlen 101\nwidth 0\nbytes 448\nbits_per_item 35.48\n";
    expect_numbers(&rt, Kind::Bits, "3\n9\n100", said)?;
    let said = "kind sequence\nlen 5\nwidth 1\nbytes 640\nbits_per_item 1024.00\n";
    expect_numbers(&rt, Kind::Sequence, "2\n3\n5\n5\n11", said)?;
    let said = "kind sparse\nlen 3\nwidth 5\nbytes 640\nbits_per_item 1706.66\n";
    expect_numbers(&rt, Kind::Sparse, "3\n9\n100", said)?;
    let said = "kind matrix\nlen 6\nwidth 3\nbytes 640\nbits_per_item 853.33\n";
    expect_numbers(&rt, Kind::Matrix, "3\n1\n\n4\n1\n5\n1", said)?;
    let said = "kind tree\nlen 4\nwidth 0\nbytes 512\nbits_per_item 1024.00\n";
    expect_numbers(&rt, Kind::Tree, "2\n0\n1\n0", said)?;
    let said = "kind bits\nlen 0\nwidth 0\nbytes 256\nbits_per_item none\n";
    expect_numbers(&rt, Kind::Bits, "", said)
}

#[test]
fn the_header_of_a_text_is_said(rt: HostRuntime) -> Result<(), Fail> {
    let mut file = Vec::new(rt.alloc());
    program_files::texts::build(rt.alloc(), b"banana".as_slice(), &mut file)?;
    let said = "kind text\nlen 6\nwidth 2\nbytes 1408\nbits_per_item 1877.33\n";
    expect_said(&rt, file.as_slice(), said)
}

#[test]
fn the_header_of_strings_is_said(rt: HostRuntime) -> Result<(), Fail> {
    let mut file = Vec::new(rt.alloc());
    program_files::strings::build(rt.alloc(), b"ada\nbob\neve\n".as_slice(), &mut file)?;
    let said = "kind strings\nlen 3\nwidth 0\nbytes 896\nbits_per_item 2389.33\n";
    expect_said(&rt, file.as_slice(), said)
}

#[test]
fn the_header_of_a_trie_is_said(rt: HostRuntime) -> Result<(), Fail> {
    let (degrees, labels) = ([2usize, 0, 1, 0], [97u64, 98, 101]);
    let mut block = [0u64; 88];
    let _ = tree_block::trie::build(&degrees, &labels, 8, &[0b1110], block.as_mut_slice());
    let said = "kind trie\nlen 4\nwidth 8\nbytes 704\nbits_per_item 1408.00\n";
    expect_said_of_block(&rt, block.as_slice(), said)
}

#[test]
fn other_bytes_are_wrong(rt: HostRuntime) -> Result<(), Fail> {
    let mut file = Vec::new(rt.alloc());
    program_files::strings::build(rt.alloc(), b"ada\nbob\neve\n".as_slice(), &mut file)?;
    for at in 0..file.len() {
        file[at] ^= 1;
        assert!(rt; !check(rt.alloc(), file.as_slice())?, "at byte {at}");
        file[at] ^= 1;
        let part = &file.as_slice()[..at];
        assert!(rt; !check(rt.alloc(), part)?, "at length {at}");
    }
    Ok(())
}
