//! A small block: its words, its changes and its errors.
use bitm_block::{
    Block, Head, OpenError, Section, WriteError, checksum_in, checksum_of, is_verified, len_in,
    seal, size,
};
use std::process::Abort;
use std::test::Fail;

/// What the block of `WORDS` says: of three sections, one of words, one of samples and one of bytes.
const HEAD: Head = Head {
    kind: 7,
    len: 300,
    width: 5,
    ones_log2: 8,
    zeros_log2: 9,
    a: 11,
    b: 12,
    c: 13,
};

/// A block of three sections, as a program in Python made it from the table of docs/FORMAT.md.
const WORDS: [u64; 56] = [
    0x046261746d746962,
    0x0000000000000007,
    0x00000000000001c0,
    0x000000000000012c,
    0x0000000000000005,
    0x0000000000000008,
    0x0000000000000009,
    0x0000000000000000,
    0x000000000000000b,
    0x000000000000000c,
    0x000000000000000d,
    0x0000000000000003,
    0x0000000000000000,
    0x0000000000000000,
    0xb5ddf98aa2872d73,
    0x418f62c141a1e849,
    0x0000000000000001,
    0x0000000000000100,
    0x0000000000000003,
    0x869a5bc2df1e43e7,
    0x0000000000000007,
    0x0000000000000140,
    0x0000000000000003,
    0x395186e5ceec0461,
    0x0000000000010000,
    0x0000000000000180,
    0x000000000000000a,
    0x35f0cacdc689adc1,
    0x0000000000000000,
    0x0000000000000000,
    0x0000000000000000,
    0x0000000000000000,
    0x0123456789abcdef,
    0xfedcba9876543210,
    0x00ff00ff00ff00ff,
    0x0000000000000000,
    0x0000000000000000,
    0x0000000000000000,
    0x0000000000000000,
    0x0000000000000000,
    0x0000000200000001,
    0x0000000000000003,
    0x0000000000000000,
    0x0000000000000000,
    0x0000000000000000,
    0x0000000000000000,
    0x0000000000000000,
    0x0000000000000000,
    0x6f77206f6c6c6568,
    0x000000000000646c,
    0x0000000000000000,
    0x0000000000000000,
    0x0000000000000000,
    0x0000000000000000,
    0x0000000000000000,
    0x0000000000000000,
];

/// The same block of version 3, as that program made it: another mark, and other checksums.
fn words_of_version_3() -> [u64; 56] {
    let mut words = WORDS;
    words[0] = 0x036261746d746962;
    words[14] = 0x17ef29c8d0f72cd2;
    words[15] = 0xa58e7e43f9236a12;
    words[19] = 0x6cac4136a56f3c8e;
    words[23] = 0xfc9fc62461570396;
    words[27] = 0xa0b5fa5f4f82c1f2;
    words
}

/// Its sections: three words, three samples of four bytes, ten bytes.
fn sections() -> [Section; 3] {
    [
        Section { role: 1, count: 3 },
        Section { role: 7, count: 3 },
        Section {
            role: 65536,
            count: 10,
        },
    ]
}

/// The error of words, or none.
fn error_of(words: &[u64]) -> Option<OpenError> {
    match Block::open(words) {
        Ok(_) => None,
        Err(error) => Some(error),
    }
}

/// How many bits of the words from `first` on can be flipped, one at a time, so that the block is right all the same.
fn unseen_flips(words: &mut [u64], first: usize) -> usize {
    let mut unseen = 0usize;
    for i in first..words.len() {
        for bit in 0..64u32 {
            words[i] ^= 1u64 << bit;
            unseen = unseen.wrapping_add(is_verified(&*words) as usize);
            words[i] ^= 1u64 << bit;
        }
    }
    unseen
}

/// How many prefixes of the words are opened.
fn opened_prefixes(words: &[u64]) -> usize {
    let mut opened = 0usize;
    for len in 0..words.len() {
        opened = opened.wrapping_add(Block::open(&words[..len]).is_ok() as usize);
    }
    opened
}

/// Writes both checksums of a header anew.
fn sum_again(words: &mut [u64]) {
    if words.len() >= 32 {
        words[14] = checksum_of(&words[16..32]);
        words[15] = checksum_of(&words[..15]);
    }
}

#[test]
fn checksums_are_those_of_another_program(rt: HostRuntime) -> Result<(), Fail> {
    assert!(rt; checksum_of([].as_slice()) == 0x9736_38d3_ce0f_3ad5);
    assert!(rt; checksum_of([0u64].as_slice()) == 0xa37d_a371_58bd_2c5f);
    assert!(rt; checksum_of([1u64, 2, 3].as_slice()) == 0x3079_8c48_7204_7f92);
    assert!(rt; checksum_of([1u64, 2, 3, 4, 5, 6].as_slice()) == 0xa2c_21bf_8f07_94a5);
    assert!(rt; checksum_of([0u64; 8].as_slice()) == 0x25f1_e060_4e83_22fe);
    assert!(rt; checksum_of([u64::MAX; 3].as_slice()) == 0x23a7_9e04_c05c_1694);
    Ok(())
}

#[test]
fn checksums_of_version_3_are_those_of_another_program(rt: HostRuntime) -> Result<(), Fail> {
    assert!(rt; checksum_in(3, [].as_slice()) == 0);
    assert!(rt; checksum_in(3, [0u64].as_slice()) == 0x9e37_79b9_e17d_05ac);
    assert!(rt; checksum_in(3, [1u64, 2, 3].as_slice()) == 0x17fe_95fe_dfb7_79a5);
    assert!(rt; checksum_in(3, [1u64, 2, 3, 4, 5, 6].as_slice()) == 0xf9da_b302_7b56_6499);
    assert!(rt; checksum_in(3, [0u64; 8].as_slice()) == 0xb5dda96bf4e1ef47);
    assert!(rt; checksum_in(3, [u64::MAX; 3].as_slice()) == 0x8f24b17964425c75);
    Ok(())
}

#[test]
fn a_block_is_written_around_its_sections(rt: HostRuntime) -> Result<(), Fail> {
    assert!(rt; size(sections().as_slice()) == Some(56));
    // the words of the sections alone, and no zeros
    let mut block = [0x5555_5555_5555_5555u64; 56];
    block[32] = 0x0123_4567_89ab_cdef;
    block[33] = 0xfedc_ba98_7654_3210;
    block[34] = 0x00ff_00ff_00ff_00ff;
    block[40] = 0x0000_0002_0000_0001;
    block[41] = 3;
    block[48] = 0x6f77_206f_6c6c_6568;
    block[49] = 0x646c;
    assert!(rt; seal(&HEAD, sections().as_slice(), block.as_mut_slice()).is_ok());
    assert!(rt; block == WORDS);
    Ok(())
}

#[test]
fn a_block_is_read(rt: HostRuntime) -> Result<(), Fail> {
    let words = WORDS;
    assert!(rt; len_in(&words.as_slice()[..16]) == Ok(56));
    let Ok(block) = Block::open(words.as_slice()) else {
        assert!(rt; false, "not opened");
        return Ok(());
    };
    assert!(rt; block.head() == HEAD);
    assert!(rt; block.sections() == 3);
    assert!(rt;
        block.entry(2)
            == Some(Section {
                role: 65536,
                count: 10
            })
    );
    assert!(rt; block.entry(3).is_none());
    let lens = [
        block.section(0).map_or(99, |part| part.len()),
        block.section(1).map_or(99, |part| part.len()),
        block.section(2).map_or(99, |part| part.len()),
        block.section(3).map_or(99, |part| part.len()),
    ];
    assert!(rt; lens == [3, 2, 2, 99]);
    assert!(rt;
        block
            .section(1)
            .map_or(0, |part| if part.len() == 2 { part[1] } else { 0 })
            == 3
    );
    assert!(rt; block.verify());
    Ok(())
}

#[test]
fn each_flipped_bit_is_seen(rt: HostRuntime) -> Result<(), Fail> {
    let mut words = WORDS;
    assert!(rt; is_verified(words.as_slice()));
    assert!(rt; unseen_flips(words.as_mut_slice(), 0) == 0);
    // in header and directory by the opening alone
    let mut opened = 0usize;
    for i in 0..32usize {
        words[i] ^= 1;
        opened = opened.wrapping_add(error_of(words.as_slice()).is_none() as usize);
        words[i] ^= 1;
    }
    assert!(rt; opened == 0);
    Ok(())
}

#[test]
fn a_block_of_version_3_is_read_and_each_flipped_bit_of_it_is_seen(
    rt: HostRuntime,
) -> Result<(), Fail> {
    let mut words = words_of_version_3();
    assert!(rt; len_in(&words.as_slice()[..16]) == Ok(56));
    let Ok(block) = Block::open(words.as_slice()) else {
        assert!(rt; false, "not opened");
        return Ok(());
    };
    assert!(rt; block.head() == HEAD && block.sections() == 3 && block.verify());
    assert!(rt; unseen_flips(words.as_mut_slice(), 0) == 0);
    Ok(())
}

#[test]
fn a_checksum_of_the_other_version_is_refused(rt: HostRuntime) -> Result<(), Fail> {
    let old = words_of_version_3();
    let mut words = WORDS;
    words[0] = old[0];
    assert!(rt; error_of(words.as_slice()) == Some(OpenError::WrongHeader));
    words[15] = checksum_in(3, &words.as_slice()[..15]);
    assert!(rt; error_of(words.as_slice()) == Some(OpenError::WrongDirectory));
    words[14] = old[14];
    words[15] = checksum_in(3, &words.as_slice()[..15]);
    assert!(rt; error_of(words.as_slice()) == Some(OpenError::WrongDirectory));
    // the sections have the checksums of version 4 still
    words[14] = checksum_in(3, &words.as_slice()[16..32]);
    words[15] = checksum_in(3, &words.as_slice()[..15]);
    assert!(rt; error_of(words.as_slice()).is_none() && !is_verified(words.as_slice()));
    Ok(())
}

#[test]
fn no_other_length_is_opened(rt: HostRuntime) -> Result<(), Fail> {
    let words = WORDS;
    assert!(rt; opened_prefixes(words.as_slice()) == 0);
    assert!(rt; error_of(&words.as_slice()[..15]) == Some(OpenError::TooShort));
    assert!(rt; error_of(&words.as_slice()[..16]) == Some(OpenError::WrongLength));
    assert!(rt; error_of(&words.as_slice()[..55]) == Some(OpenError::WrongLength));
    let mut longer = [0u64; 57];
    for i in 0..56usize {
        longer[i] = words[i];
    }
    assert!(rt; error_of(longer.as_slice()) == Some(OpenError::WrongLength));
    Ok(())
}

#[test]
fn each_error_has_its_reason(rt: HostRuntime) -> Result<(), Fail> {
    let mut words = WORDS;
    // the marks of versions 2 and 5, that of the other byte order, and none
    words[0] = 0x0262_6174_6d74_6962;
    assert!(rt; error_of(words.as_slice()) == Some(OpenError::OtherVersion));
    words[0] = 0x0562_6174_6d74_6962;
    assert!(rt; error_of(words.as_slice()) == Some(OpenError::OtherVersion));
    words[0] = 0x6269_746d_7461_6204;
    assert!(rt; error_of(words.as_slice()) == Some(OpenError::NotABlock));
    let mut words = WORDS;
    words[1] = 8;
    assert!(rt; error_of(words.as_slice()) == Some(OpenError::WrongHeader));
    // with checksums that are right again
    sum_again(words.as_mut_slice());
    assert!(rt; error_of(words.as_slice()).is_none());
    words[7] = 1;
    sum_again(words.as_mut_slice());
    assert!(rt; error_of(words.as_slice()) == Some(OpenError::UnknownFeature));
    let mut words = WORDS;
    words[21] = 320 + 64;
    sum_again(words.as_mut_slice());
    assert!(rt; error_of(words.as_slice()) == Some(OpenError::WrongDirectory));
    let mut words = WORDS;
    words[29] = 1;
    sum_again(words.as_mut_slice());
    assert!(rt; error_of(words.as_slice()) == Some(OpenError::WrongDirectory));
    let mut words = WORDS;
    words[22] = 1 << 58;
    sum_again(words.as_mut_slice());
    assert!(rt; error_of(words.as_slice()) == Some(OpenError::WrongDirectory));
    Ok(())
}

#[test]
fn no_block_is_written_where_there_is_none(rt: HostRuntime) -> Result<(), Fail> {
    let many = [Section { role: 1, count: 0 }; 17];
    let long = [Section {
        role: 1,
        count: 1 << 58,
    }];
    let mut words = [7u64; 56];
    assert!(rt; seal(&HEAD, many.as_slice(), words.as_mut_slice()) == Err(WriteError::TooLarge));
    assert!(rt; seal(&HEAD, long.as_slice(), words.as_mut_slice()) == Err(WriteError::TooLarge));
    assert!(rt;
        seal(&HEAD, &sections().as_slice()[..2], words.as_mut_slice())
            == Err(WriteError::WrongLength)
    );
    assert!(rt; words == [7u64; 56]);
    assert!(rt; size(many.as_slice()).is_none());
    assert!(rt; size([].as_slice()) == Some(16));
    Ok(())
}
