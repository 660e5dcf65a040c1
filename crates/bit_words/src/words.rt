//! The calls of `BitAccess` and `BitAccessMut` that read, count, find or write, as functions over slices by value.
//!
//! A caller that passes a slice to one of these learns what the slice's owner holds afterwards, in every form of call.
//! Where two calls of the traits do the same (plain and `_unchecked`), there is one function here. Iterators are made
//! by `BitBIterator::new` and `BitIterator::{new, with_range}`; hints to load (`prefetch_..`) have no function.

pub use crate::closures::{
    conditionally_change_bits, conditionally_change_fragment, conditionally_copy_bits,
    conditionally_copy_fragment,
};
pub use crate::combining::{and, and_not, or, xor};
pub use crate::finding::{
    find_bit_one, find_bit_one_unchecked, rfind_bit_one_unchecked, trailing_zero_bits,
};
pub use crate::fragments::{
    get_fragment, get_fragment_unmasked, init_fragment, set_fragment, swap_fragments,
    try_get_fragment, try_get_fragment_0_64, try_get_fragment_unmasked, try_set_fragment_0_64,
    xor_fragment,
};
pub use crate::nearest::{find_bit_zero, rfind_bit_one, rfind_bit_zero};
pub use crate::ranges::{count_range, fill_range, flip_range};
pub use crate::reading::{
    get_bit, get_bits, get_bits_unmasked, try_get_bit, try_get_bits, try_get_bits_0_64,
    try_get_bits_unmasked,
};
pub use crate::successive::{
    get_successive_bit, get_successive_bits, get_successive_fragment, init_successive_bit,
    init_successive_bits, init_successive_fragment, set_successive_bit_to, set_successive_bits,
    set_successive_fragment, xor_successive_bits, xor_successive_fragment,
};
pub use crate::writing::{
    clear_bit, init_bit, init_bits, set_bit, set_bit_to, set_bits, try_clear_bit, try_set_bit,
    try_set_bit_to, try_set_bits_0_64, xor_bits,
};
pub use broadword::{count_bit_ones, count_bit_zeros};
