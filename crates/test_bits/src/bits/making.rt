//! Vectors that are made, their sizes and copies, and the width that stores a number: values worked out by hand. That
//! memory is found where there is some, and that a type keeps bytes on the heap, no clause says.
use bitm_bits::{BitAccess, BitVec, CloneWords, GetSize, bits_to_store, words};
use std::alloc::{AllocError, Global};
use std::boxed::BoxedSlice;

type Words = BoxedSlice<u64, Global>;

#[derive(Clone, Copy)]
enum Form {
    Segments,
    ZeroedSegments,
    FilledSegments,
    ZeroedBits,
    NoBits,
    FilledBits,
    FragmentsOfNoBits,
    FragmentsOfThreeBits,
    FragmentsOfOneBit,
    FragmentsOfWords,
}

/// The vector of each form, by the bound alone.
fn made<V: BitVec<Alloc = Global>>(alloc: Global, form: Form) -> Result<V, AllocError> {
    match form {
        Form::Segments => V::with_64bit_segments(alloc, 7, 3),
        Form::ZeroedSegments => V::with_zeroed_64bit_segments(alloc, 2),
        Form::FilledSegments => V::with_filled_64bit_segments(alloc, 2),
        Form::ZeroedBits => V::with_zeroed_bits(alloc, 129),
        Form::NoBits => V::with_zeroed_bits(alloc, 0),
        Form::FilledBits => V::with_filled_bits(alloc, 65),
        Form::FragmentsOfNoBits => V::with_bitwords(alloc, 0, 0, 3),
        Form::FragmentsOfThreeBits => V::with_bitwords(alloc, 5, 3, 22),
        Form::FragmentsOfOneBit => V::with_bitwords(alloc, 1, 1, 65),
        Form::FragmentsOfWords => V::with_bitwords(alloc, u64::MAX, 64, 2),
    }
}

#[test]
fn vectors_have_the_words_of_their_form(rt: HostRuntime) {
    let rows: [(Form, &[u64]); 10] = [
        (Form::Segments, &[7, 7, 7]),
        (Form::ZeroedSegments, &[0, 0]),
        (Form::FilledSegments, &[u64::MAX, u64::MAX]),
        (Form::ZeroedBits, &[0, 0, 0]),
        (Form::NoBits, &[]),
        (Form::FilledBits, &[u64::MAX, u64::MAX]),
        (Form::FragmentsOfNoBits, &[]),
        (Form::FragmentsOfThreeBits, &[0xDB6D_B6DB_6DB6_DB6D, 2]),
        (Form::FragmentsOfOneBit, &[u64::MAX, 1]),
        (Form::FragmentsOfWords, &[u64::MAX, u64::MAX]),
    ];
    for (form, words) in rows {
        let vector: Words = made(rt.alloc(), form).expect(&rt, "memory is left");
        assert!(rt; vector.as_slice() == words);
    }
}

#[test]
fn vectors_are_read_and_written(rt: HostRuntime) {
    let mut zeros = Words::with_zeroed_bits(rt.alloc(), 2048).expect(&rt, "memory is left");
    words::set_bit(zeros.as_mut_slice(), 100);
    assert!(rt; zeros.as_slice().get_bits(99, 5) == 0b00010);
    let filled = Words::with_filled_bits(rt.alloc(), 65).expect(&rt, "memory is left");
    assert!(rt; filled.as_slice().count_bit_ones() == 128);
    let fragments = Words::with_bitwords(rt.alloc(), 5, 3, 22).expect(&rt, "memory is left");
    assert!(rt; fragments.as_slice().get_bits(63, 3) == 5);
}

#[test]
fn a_length_too_great_is_refused(rt: HostRuntime) {
    let refused = Words::with_64bit_segments(rt.alloc(), 0, usize::MAX);
    assert!(rt; refused.is_err());
}

/// What a value keeps and whether its type may keep any.
fn size<V: GetSize>(value: &V) -> (usize, bool) {
    (value.size_bytes_dyn(), V::USES_DYN_MEM)
}

#[test]
fn sizes_are_those_of_the_items(rt: HostRuntime) {
    let alloc = rt.alloc();
    let words = BoxedSlice::from_slice(alloc, &[1u64, 2, 3]).expect(&rt, "memory is left");
    let positions = BoxedSlice::from_slice(alloc, &[1usize, 2]).expect(&rt, "memory is left");
    let halves = BoxedSlice::from_slice(alloc, &[1u32, 2, 3]).expect(&rt, "memory is left");
    assert!(rt; size(&words) == (24, true));
    assert!(rt; size(&positions) == (16, true));
    assert!(rt; size(&halves) == (12, true));
    assert!(rt; size(&words.as_slice()) == (0, false));
    assert!(rt; size(&()) == (0, false));
    assert!(rt; size(&7u8) == (0, false));
}

/// A copy by the bound alone.
fn copy_of<V: CloneWords>(alloc: Global, value: &V) -> Result<V, AllocError> {
    value.try_same(alloc)
}

#[test]
fn copies_have_the_same_words(rt: HostRuntime) {
    let words = BoxedSlice::from_slice(rt.alloc(), &[13u64, 6]).expect(&rt, "memory is left");
    let copy = copy_of(rt.alloc(), &words).expect(&rt, "memory is left");
    let borrowed = copy_of(rt.alloc(), &words.as_slice()).expect(&rt, "no memory is taken");
    assert!(rt; copy.as_slice() == [13, 6].as_slice());
    assert!(rt; borrowed == [13, 6].as_slice());
}

#[test]
fn bits_to_store_is_how_many_binary_digits_there_are(rt: HostRuntime) {
    let rows = [
        (0, 0),
        (1, 1),
        (2, 2),
        (3, 2),
        (4, 3),
        (7, 3),
        (8, 4),
        (9, 4),
        (15, 4),
        (16, 5),
        (0xFFFF_FFFE, 32),
        (0xFFFF_FFFF, 32),
        (u64::MAX, 64),
    ];
    for (value, width) in rows {
        assert!(rt; bits_to_store(value) == width);
    }
}
