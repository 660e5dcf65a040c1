//! What a caller knows of the owner of a slice, after methods that write through a reference to that slice.
ghost use Rattle.std.specs.Prelude.{◌≡◌, ◌≤◌, length, vec_len};
ghost use Rattle.std.specs.Box.{boxed_slice_items};
ghost use Rattle.bitm_bits.specs.Bits.{bits_of};
ghost use Rattle.bitm_bits.specs.Number.{with_number};

use bitm_bits::{BitAccessMut, words};
use std::alloc::Global;
use std::boxed::BoxedSlice;
use std::convert::identity;

/// A parameter: handed on by `identity`.
fn write_parameter(slice: &mut [u64])
    requires { 2 ≤ length slice.old }
    ensures { bits_of slice.new
        ≡ with_number (with_number (bits_of slice.old) 3 1 1) 62 3 5 }
{
    let mut borrowed = identity(slice);
    borrowed.set_bit(3);
    borrowed.set_bits(62, 5, 3);
}

/// A parameter: by the functions over slices.
fn write_by_words(slice: &mut [u64])
    requires { 2 ≤ length slice.old }
    ensures { bits_of slice.new
        ≡ with_number (with_number (bits_of slice.old) 3 1 1) 62 3 5 }
{
    words::set_bit(slice, 3);
    words::set_bits(slice, 62, 5, 3);
}

/// A boxed slice: its slice stands in a tuple.
fn write_boxed(boxed: &mut BoxedSlice<u64, Global>)
    requires { 2 ≤ length (boxed_slice_items boxed.old) }
    ensures { bits_of (boxed_slice_items boxed.new)
        ≡ with_number (with_number (bits_of (boxed_slice_items boxed.old)) 3 1 1) 62 3 5 }
{
    let slice = boxed.as_mut_slice();
    let borrowed = &mut (&mut *slice,);
    borrowed.0.set_bit(3);
    borrowed.0.set_bits(62, 5, 3);
}

/// A vector: its slice goes to a function over slices.
fn write_vector(vector: &mut Vec<u64>)
    requires { 2 ≤ vec_len vector.old }
    ensures { bits_of vector.new.items
        ≡ with_number (with_number (bits_of vector.old.items) 3 1 1) 62 3 5 }
{
    write_parameter(vector.as_mut_slice());
}

/// An array: its slice stands in a tuple.
fn write_array<const N: usize>(array: &mut [u64; N])
    requires { 2 ≤ N }
    ensures { bits_of array.new
        ≡ with_number (with_number (bits_of array.old) 3 1 1) 62 3 5 }
{
    let slice = array.as_mut_slice();
    let borrowed = &mut (&mut *slice,);
    borrowed.0.set_bit(3);
    borrowed.0.set_bits(62, 5, 3);
}

/// Any value whose words can be borrowed.
fn write_any<B: BitAccessMut>(bits: &mut B)
    requires { 2 ≤ length (B.words bits.old) }
    ensures same { B.lender bits.new ≡ B.lender bits.old }
    ensures len { length (B.words bits.new) ≡ length (B.words bits.old) }
    ensures after { bits_of (B.words bits.new)
        ≡ with_number (with_number (bits_of (B.words bits.old)) 3 1 1) 62 3 5 }
{
    bits.set_bit(3);
    bits.set_bits(62, 5, 3);
}

/// A boxed slice, by generic code.
fn write_boxed_by_any(boxed: &mut BoxedSlice<u64, Global>)
    requires { 2 ≤ length (boxed_slice_items boxed.old) }
    ensures { bits_of (boxed_slice_items boxed.new)
        ≡ with_number (with_number (bits_of (boxed_slice_items boxed.old)) 3 1 1) 62 3 5 }
{
    let slice = boxed.as_mut_slice();
    let borrowed = &mut (&mut *slice,);
    write_any(&mut borrowed.0);
}

#[test]
fn owners_hold_what_was_written(rt: HostRuntime) {
    let written = [0x4000_0000_0000_0008u64, 1];
    let mut array = [0u64, 0];
    write_array(&mut array);
    assert!(rt; array == written);
    let mut by_words = [0u64, 0];
    write_by_words(&mut by_words);
    assert!(rt; by_words == written);
    let mut vector = vec![in rt.alloc(); 0u64, 0].expect(&rt, "memory");
    write_vector(&mut vector);
    assert!(rt; vector.as_slice() == written.as_slice());
    let mut boxed = vec![in rt.alloc(); 0u64, 0]
        .expect(&rt, "memory")
        .into_boxed_slice();
    write_boxed(&mut boxed);
    assert!(rt; boxed.as_slice() == written.as_slice());
    let mut by_any = vec![in rt.alloc(); 0u64, 0]
        .expect(&rt, "memory")
        .into_boxed_slice();
    write_boxed_by_any(&mut by_any);
    assert!(rt; by_any.as_slice() == written.as_slice());
}
