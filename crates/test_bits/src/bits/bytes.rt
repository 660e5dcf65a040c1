//! Byte access: the window at a bit, read and written, worked out by hand.
use bitm_bits::{get_bits25, get_bits57, init_bits25, init_bits57, set_bits25, set_bits57};

const NIBBLES: [u8; 8] = [0x10, 0x32, 0x54, 0x76, 0x98, 0xBA, 0xDC, 0xFE];

#[test]
fn windows_are_read_from_the_bit_on(rt: HostRuntime) {
    assert!(rt; get_bits57(NIBBLES.as_slice(), 4) == 0x0FED_CBA9_8765_4321);
    assert!(rt; get_bits25(NIBBLES.as_slice(), 36) == 0x0FED_CBA9);
}

#[test]
fn windows_are_begun_over_a_byte_border(rt: HostRuntime) {
    let mut bytes = [0u8; 9];
    init_bits57(bytes.as_mut_slice(), 11, 0x1FF);
    assert!(rt; bytes == [0, 0xF8, 0x0F, 0, 0, 0, 0, 0, 0]);
    let mut bytes = [0u8; 5];
    init_bits25(bytes.as_mut_slice(), 11, 0x1FF);
    assert!(rt; bytes == [0, 0xF8, 0x0F, 0, 0]);
}

#[test]
fn windows_are_replaced_under_the_mask(rt: HostRuntime) {
    let mut bytes = [0xFFu8; 8];
    set_bits57(bytes.as_mut_slice(), 3, 0b01, 0b11);
    assert!(rt; bytes == [0xEF, 0xFF, 0xFF, 0xFF, 0xFF, 0xFF, 0xFF, 0xFF]);
    let mut bytes = [0xFFu8; 4];
    set_bits25(bytes.as_mut_slice(), 3, 0b01, 0b11);
    assert!(rt; bytes == [0xEF, 0xFF, 0xFF, 0xFF]);
}
