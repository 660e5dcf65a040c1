//! Perfect hashes, with seeds, with keys and with notes.
use crate::kinds::saying::{expect_said_of_block, file_of};
use bitm_block::{Section, checksum_of};
use block_sections::extend;
use hash_block::{Added, build_dictionary};
use program_files::kinds::check;
use std::process::Abort;
use std::test::Fail;

/// The block of a hash of three keys, in a level of one word.
fn hash() -> [u64; 64] {
    let mut block = [0u64; 64];
    let _ = hash_block::build(&[0b1101], &[1], 7, block.as_mut_slice());
    block
}

/// The block of the dictionary of twelve squares.
fn squares(rt: &(impl Abort + AllocGlobal)) -> Result<[u64; 88], Fail> {
    let keys = [1u64, 4, 9, 16, 25, 36, 49, 64, 81, 100, 121, 144];
    let mut block = [0u64; 88];
    if let Ok(made) = perfect_hash::build(rt.alloc(), Added { seed: 2 }, keys.as_slice(), 100) {
        let _ = build_dictionary(&made, keys.as_slice(), block.as_mut_slice());
    }
    Ok(block)
}

#[test]
fn a_hash_is_distinguished_from_one_with_seeds(rt: HostRuntime) -> Result<(), Fail> {
    let said = "kind hash\nlen 3\nwidth 0\nbytes 512\nbits_per_item 1365.33\n";
    expect_said_of_block(&rt, hash().as_slice(), said)?;
    let mut block = [0u64; 80];
    let _ = hash_block::seeded::build(&[0b1101], &[17], &[1], 7, block.as_mut_slice());
    let said = "kind hash with seeds\nlen 3\nwidth 0\nbytes 640\nbits_per_item 1706.66\n";
    expect_said_of_block(&rt, block.as_slice(), said)
}

#[test]
fn a_hash_of_no_key_has_no_bits_for_a_key(rt: HostRuntime) -> Result<(), Fail> {
    let mut block = [0u64; 32];
    let _ = hash_block::build(&[], &[], 0, block.as_mut_slice());
    let said = "kind hash\nlen 0\nwidth 0\nbytes 256\nbits_per_item none\n";
    expect_said_of_block(&rt, block.as_slice(), said)
}

#[test]
fn a_hash_with_a_note_is_a_hash(rt: HostRuntime) -> Result<(), Fail> {
    let note = Section {
        role: 1 << 16,
        count: 11,
    };
    let mut block = [0u64; 80];
    let _ = extend(hash().as_slice(), &note, &[1, 2], block.as_mut_slice());
    let said = "kind hash\nlen 3\nwidth 0\nbytes 640\nbits_per_item 1706.66\n";
    expect_said_of_block(&rt, block.as_slice(), said)
}

#[test]
fn the_keys_of_a_dictionary_are_checked(rt: HostRuntime) -> Result<(), Fail> {
    let mut block = squares(&rt)?;
    let said = "kind dictionary\nlen 12\nwidth 0\nbytes 704\nbits_per_item 469.33\n";
    expect_said_of_block(&rt, block.as_slice(), said)?;
    // two keys exchanged, with the right checksums
    let first = block[72];
    block[72] = block[73];
    block[73] = first;
    block[35] = checksum_of(&block.as_slice()[72..84]);
    block[14] = checksum_of(&block.as_slice()[16..40]);
    block[15] = checksum_of(&block.as_slice()[..15]);
    assert!(rt; hash_block::check(block.as_slice()));
    let file = file_of(&rt, block.as_slice())?;
    assert!(rt; !check(rt.alloc(), file.as_slice())?);
    Ok(())
}
