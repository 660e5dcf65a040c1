//! Calls that leave the next position, begin or index: what they write and read, and where they end, worked out by
//! hand.
use bitm_bits::{BitAccess, BitAccessMut};

#[test]
fn each_write_stands_behind_the_last(rt: HostRuntime) {
    let mut array = [0u64, 0];
    let mut content = array.as_mut_slice();
    let mut position = 61;
    content.set_successive_bit_to(&mut position, true);
    content.set_successive_bits(&mut position, 0b101, 3);
    content.xor_successive_bits(&mut position, 0b11, 2);
    let mut index = 1;
    content.set_successive_fragment(&mut index, 0b101, 3);
    content.xor_successive_fragment(&mut index, 0b11, 3);
    assert!(rt; (position, index) == (67, 3));
    assert!(rt; &*content == [0x6000_0000_0000_00E8u64, 0b111].as_slice());
}

#[test]
fn each_read_stands_behind_the_last(rt: HostRuntime) {
    let array = [0x6000_0000_0000_00E8u64, 0b1011];
    let content = array.as_slice();
    let mut position = 61;
    assert!(rt; content.get_successive_bit(&mut position) == true);
    assert!(rt; content.get_successive_bits(&mut position, 5) == 0b01101);
    assert!(rt; content.get_successive_bit(&mut position) == true);
    let mut index = 1;
    assert!(rt; content.get_successive_fragment(&mut index, 3) == 0b101);
    assert!(rt; content.get_successive_fragment(&mut index, 3) == 0b11);
    assert!(rt; (position, index) == (68, 3));
}

#[test]
fn a_number_is_begun_and_the_next_begin_is_left(rt: HostRuntime) {
    let mut array = [0u64, 0];
    let mut content = array.as_mut_slice();
    let mut position = 62;
    content.init_successive_bits(&mut position, 0b101, 3);
    assert!(rt; position == 65);
    assert!(rt; &*content == [1u64 << 62, 1].as_slice());
}

#[test]
fn a_fragment_is_begun_and_the_next_index_is_left(rt: HostRuntime) {
    let mut array = [0u64, 0];
    let mut content = array.as_mut_slice();
    let mut index = 21;
    content.init_successive_fragment(&mut index, 0b101, 3);
    assert!(rt; index == 22);
    assert!(rt; &*content == [1u64 << 63, 0b10].as_slice());
}

#[test]
fn a_bit_is_begun_and_the_next_position_is_left(rt: HostRuntime) {
    let mut array = [0u64, 0];
    let mut content = array.as_mut_slice();
    let mut position = 63;
    content.init_successive_bit(&mut position, true);
    assert!(rt; position == 64);
    assert!(rt; &*content == [1u64 << 63, 0].as_slice());
}
