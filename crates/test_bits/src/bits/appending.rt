//! Bits and numbers that are appended: the words are worked out by hand.
use bitm_bits::BitWriter;
use std::alloc::{AllocError, Global};

/// A one, the three lowest digits of ten, 64 ones, and no digits.
fn written(alloc: Global) -> Result<BitWriter, AllocError> {
    let mut writer = BitWriter::new(alloc);
    writer.push_bit(true)?;
    writer.push_bits(10, 3)?;
    writer.push_bits(u64::MAX, 64)?;
    writer.push_bits(7, 0)?;
    Ok(writer)
}

#[test]
fn pieces_stand_one_behind_the_other(rt: HostRuntime) {
    let writer = written(rt.alloc()).expect(&rt, "memory is left");
    let words: &[u64] = &[0xFFFF_FFFF_FFFF_FFF5, 0xF];
    assert!(rt; writer.len() == 68);
    assert!(rt; writer.as_slice() == words);
    assert!(rt; writer.into_boxed_slice().as_slice() == words);
}
