//! Hashes of strings beside the hashes of Rust's standard library.
use hash_block::strings::{hash, hashes};
use std::process::Abort;
use std::test::Fail;

/// The hash of the first of the bytes 0, 1, 2, .. by a seed.
fn hash_of_first(seed: u64, len: usize) -> u64 {
    let bytes = [
        0u8, 1, 2, 3, 4, 5, 6, 7, 8, 9, 10, 11, 12, 13, 14, 15, 16, 17, 18, 19,
    ];
    if len <= 20 {
        return hash(seed, &bytes.as_slice()[..len]);
    }
    0
}

/// How many neighbours in a list of hashes are equal, once it is sorted.
fn equal_of(sorted: &[u64]) -> usize {
    let mut equal = 0usize;
    for i in 1..sorted.len() {
        equal = equal.wrapping_add((sorted[i - 1] == sorted[i]) as usize);
    }
    equal
}

// `core::hash::SipHasher13::new_with_keys(seed, 0)` of Rust 1.95; with the seed 0 it is std's `DefaultHasher`.
#[test]
fn hashes_are_those_of_siphash_1_3(rt: HostRuntime) -> Result<(), Fail> {
    assert!(rt; hash(0, b"".as_slice()) == 0xd1fb_a762_150c_532c);
    assert!(rt; hash(0, b"a".as_slice()) == 0x4074_48d2_b89b_1813);
    assert!(rt; hash(0, b"foobar".as_slice()) == 0x7738_ae0a_5df0_9b34);
    assert!(rt; hash(1, b"foobar".as_slice()) == 0xe5eb_d7dc_aae1_c704);
    assert!(rt; hash(u64::MAX, b"foobar".as_slice()) == 0xf105_1cc8_5f54_d424);
    assert!(rt; hash(0, b"\xff\x00\x00\x01".as_slice()) == 0x6f7e_cbf4_b3a4_3f39);
    let seed = 0x0706_0504_0302_0100;
    assert!(rt; hash_of_first(seed, 7) == 0x3dd2_0bc6_123b_60e0);
    assert!(rt; hash_of_first(seed, 8) == 0x5124_317f_8cfc_24cb);
    assert!(rt; hash_of_first(seed, 9) == 0x9d1f_9dbb_9125_d122);
    assert!(rt; hash_of_first(seed, 16) == 0xa07b_f403_8d63_8986);
    assert!(rt; hash_of_first(seed, 17) == 0xf0f4_1b97_a64c_8426);
    Ok(())
}

#[test]
fn strings_of_a_list_have_the_hash_of_each(rt: HostRuntime) -> Result<(), Fail> {
    let bytes = b"foobarafoo";
    let mut out = [1u64; 4];
    assert!(rt;
        hashes(
            0,
            bytes.as_slice(),
            [6, 7, 7, 10].as_slice(),
            out.as_mut_slice()
        )
    );
    assert!(rt; out[0] == 0x7738_ae0a_5df0_9b34 && out[1] == 0x4074_48d2_b89b_1813);
    assert!(rt; out[2] == 0xd1fb_a762_150c_532c && out[3] == 0x6a5c_dcad_01c9_73fa);
    assert!(rt;
        hashes(
            5,
            bytes.as_slice(),
            [6, 7, 7, 10].as_slice(),
            out.as_mut_slice()
        )
    );
    assert!(rt; out[2] == 0x7428_815d_814a_b250);
    // ends that fall, too few bytes, too many, and another length
    let before = out;
    assert!(rt;
        !hashes(
            0,
            bytes.as_slice(),
            [7, 6, 7, 10].as_slice(),
            out.as_mut_slice()
        )
    );
    assert!(rt;
        !hashes(
            0,
            bytes.as_slice(),
            [6, 7, 7, 9].as_slice(),
            out.as_mut_slice()
        )
    );
    assert!(rt;
        !hashes(
            0,
            bytes.as_slice(),
            [6, 7, 7, 11].as_slice(),
            out.as_mut_slice()
        )
    );
    assert!(rt;
        !hashes(
            0,
            bytes.as_slice(),
            [6, 7, 10].as_slice(),
            out.as_mut_slice()
        )
    );
    assert!(rt; out == before);
    Ok(())
}

/// 512 strings of 26 bytes, two for each first byte. By FNV-1a that begins with its basis xor a seed, one of these
/// pairs has one hash, whatever the seed is: which one depends on the lowest byte of the seed alone.
fn joined_by_fnv(bytes: &mut [u8; 13_312], ends: &mut [usize; 512]) {
    let tails: [[u8; 25]; 2] = [
        [
            0xdc, 0x24, 0x83, 0xa9, 0x7c, 0x04, 0x1a, 0x4e, 0xa4, 0x5c, 0xf8, 0x48, 0xb1, 0x43,
            0x91, 0xe3, 0x8c, 0x94, 0x92, 0x36, 0x48, 0x98, 0x35, 0xff, 0x90,
        ],
        [
            0x2a, 0xde, 0x2d, 0xc7, 0x2b, 0x21, 0x69, 0x4b, 0xf6, 0x82, 0xce, 0xea, 0xb7, 0x15,
            0x0d, 0x67, 0xc2, 0x26, 0x94, 0xcc, 0xdf, 0x0d, 0x0e, 0xaa, 0x90,
        ],
    ];
    for i in 0..512usize {
        bytes[26 * i] = (i / 2) as u8;
        for k in 0..25usize {
            bytes[26 * i + 1 + k] = tails[i % 2][k];
        }
        ends[i] = 26 * i + 26;
    }
}

#[test]
fn strings_that_no_seed_of_fnv_separates_have_hashes_of_their_own(
    rt: HostRuntime,
) -> Result<(), Fail> {
    let mut bytes = [0u8; 13_312];
    let mut ends = [0usize; 512];
    let mut out = [0u64; 512];
    joined_by_fnv(&mut bytes, &mut ends);
    for seed in 0..3u64 {
        assert!(rt; hashes(seed, bytes.as_slice(), ends.as_slice(), out.as_mut_slice()));
        out.sort_unstable();
        assert!(rt; equal_of(out.as_slice()) == 0);
    }
    Ok(())
}
