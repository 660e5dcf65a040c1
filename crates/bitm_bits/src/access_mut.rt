//! Writes to a value that gives out words: the trait `BitAccessMut`.
//!
//! A trait cannot be cut into files, and a reader wants its 33 calls side by side: hence the length of this file.
ghost use Rattle.std.specs.Prelude.{◌≡◌, ◌+◌, ◌*◌, ◌^◌, ◌<◌, ◌≤◌, ℕ, length, if◌then◌else◌, Some, MatchOption};
ghost use Rattle.bit_lists.specs.Bits.{bits_of, IsShort};
ghost use Rattle.bitm_bits.specs.Lending.{LendsSame, Replaces, ReplacesIf, Negates};
ghost use Rattle.bit_lists.specs.Number.{number_at, with_swapped, IsClearOrAlready, IsFalseOrAlready};
ghost use Rattle.bit_lists.specs.Number.{IsInRange, IsFragmentInRange};

use crate::access::BitAccess;

/// Writes bits of the words that a value gives out: of a mutable slice of `u64`.
///
/// Each call leaves every bit that it does not name as it was, and the value gives out the same slice afterwards. A
/// call ending in `_unchecked` is the plain one: both have the same condition, which the checker proves at each call.
/// Ranges and fragments are as in `BitAccess`.
///
/// # What the slice's owner holds afterwards
/// The checker knows it by the form of the call:
///
/// | The caller has | The calls |
/// |---|---|
/// | a parameter `slice: &mut [u64]` | `let mut own = std::convert::identity(slice);`, then `own.set_bit(3)` |
/// | a boxed slice, a vector, an array | `let slice = owner.as_mut_slice();`, then as in the next row |
/// | such a local `slice` | `let own = &mut (&mut *slice,);`, then `own.0.set_bit(3)` |
/// | any of these | the functions of `words` on the slice, as `words::set_bit(slice, 3)` |
/// | a `B: BitAccessMut` | the methods, where the caller's contract says that `B.lender` and the length stay |
///
/// After a method on a local slice, as `slice.set_bit(3)`, it knows what `slice` gives out as long as `slice` is used,
/// and of the owner no more than the number of words.
pub trait BitAccessMut: BitAccess {
    /// The name of the borrow: values with one name give out the same slice.
    ghost lender: { Self → ℕ };

    /// Makes the bit at `position` equal to `value`.
    ///
    /// # Conditions
    /// The position is inside.
    fn set_bit_to(&mut self, position: usize, value: bool)
        requires { position < 64 * length (Self.words self.old) }
        ensures same { LendsSame Self.lender Self.words self.old self.new }
        ensures after { Replaces Self.words self.old self.new position 1 (if value then 1 else 0) };

    /// As `set_bit_to`, under the same conditions.
    #[inline(always)]
    fn set_bit_to_unchecked(&mut self, position: usize, value: bool)
        requires { position < 64 * length (Self.words self.old) }
        ensures same { LendsSame Self.lender Self.words self.old self.new }
        ensures after { Replaces Self.words self.old self.new position 1 (if value then 1 else 0) }
    {
        self.set_bit_to(position, value);
    }

    /// Makes the bit at `position` 1.
    ///
    /// # Conditions
    /// The position is inside.
    fn set_bit(&mut self, position: usize)
        requires { position < 64 * length (Self.words self.old) }
        ensures same { LendsSame Self.lender Self.words self.old self.new }
        ensures after { Replaces Self.words self.old self.new position 1 1 };

    /// As `set_bit`, under the same conditions.
    #[inline(always)]
    fn set_bit_unchecked(&mut self, position: usize)
        requires { position < 64 * length (Self.words self.old) }
        ensures same { LendsSame Self.lender Self.words self.old self.new }
        ensures after { Replaces Self.words self.old self.new position 1 1 }
    {
        self.set_bit(position);
    }

    /// Makes the bit at `position` 0.
    ///
    /// # Conditions
    /// The position is inside.
    fn clear_bit(&mut self, position: usize)
        requires { position < 64 * length (Self.words self.old) }
        ensures same { LendsSame Self.lender Self.words self.old self.new }
        ensures after { Replaces Self.words self.old self.new position 1 0 };

    /// As `clear_bit`, under the same conditions.
    #[inline(always)]
    fn clear_bit_unchecked(&mut self, position: usize)
        requires { position < 64 * length (Self.words self.old) }
        ensures same { LendsSame Self.lender Self.words self.old self.new }
        ensures after { Replaces Self.words self.old self.new position 1 0 }
    {
        self.clear_bit(position);
    }

    /// Makes the bit at `position`, which is 0 or already `value`, equal to `value`.
    ///
    /// # Conditions
    /// The position is inside; its bit is 0 or already `value`.
    fn init_bit(&mut self, position: usize, value: bool)
        requires inside { position < 64 * length (Self.words self.old) }
        requires clear { IsFalseOrAlready (bits_of (Self.words self.old)) position value }
        ensures same { LendsSame Self.lender Self.words self.old self.new }
        ensures after { Replaces Self.words self.old self.new position 1 (if value then 1 else 0) };

    /// As `init_bit`, under the same conditions.
    #[inline(always)]
    fn init_bit_unchecked(&mut self, position: usize, value: bool)
        requires inside { position < 64 * length (Self.words self.old) }
        requires clear { IsFalseOrAlready (bits_of (Self.words self.old)) position value }
        ensures same { LendsSame Self.lender Self.words self.old self.new }
        ensures after { Replaces Self.words self.old self.new position 1 (if value then 1 else 0) }
    {
        self.init_bit(position, value);
    }

    /// Makes the bit at `position` equal to `value`; `position` moves on by one.
    ///
    /// # Conditions
    /// The position is inside; there are fewer than 2^58 words.
    fn set_successive_bit_to(&mut self, position: &mut usize, value: bool)
        requires inside { position.old < 64 * length (Self.words self.old) }
        requires short { IsShort (Self.words self.old) }
        ensures same { LendsSame Self.lender Self.words self.old self.new }
        ensures after { Replaces Self.words self.old self.new position.old 1 (if value then 1 else 0) }
        ensures advances { position.new ≡ position.old + 1 };

    /// As `set_successive_bit_to`, under the same conditions.
    #[inline(always)]
    fn set_successive_bit_to_unchecked(&mut self, position: &mut usize, value: bool)
        requires inside { position.old < 64 * length (Self.words self.old) }
        requires short { IsShort (Self.words self.old) }
        ensures same { LendsSame Self.lender Self.words self.old self.new }
        ensures after { Replaces Self.words self.old self.new position.old 1 (if value then 1 else 0) }
        ensures advances { position.new ≡ position.old + 1 }
    {
        self.set_successive_bit_to(position, value);
    }

    /// Makes the bit at `position`, which is 0 or already `value`, equal to `value`; `position` moves on by one.
    ///
    /// # Conditions
    /// The position is inside; its bit is 0 or already `value`; there are fewer than 2^58 words.
    fn init_successive_bit(&mut self, position: &mut usize, value: bool)
        requires inside { position.old < 64 * length (Self.words self.old) }
        requires clear { IsFalseOrAlready (bits_of (Self.words self.old)) position.old value }
        requires short { IsShort (Self.words self.old) }
        ensures same { LendsSame Self.lender Self.words self.old self.new }
        ensures after { Replaces Self.words self.old self.new position.old 1 (if value then 1 else 0) }
        ensures advances { position.new ≡ position.old + 1 };

    /// As `init_successive_bit`, under the same conditions.
    #[inline(always)]
    fn init_successive_bit_unchecked(&mut self, position: &mut usize, value: bool)
        requires inside { position.old < 64 * length (Self.words self.old) }
        requires clear { IsFalseOrAlready (bits_of (Self.words self.old)) position.old value }
        requires short { IsShort (Self.words self.old) }
        ensures same { LendsSame Self.lender Self.words self.old self.new }
        ensures after { Replaces Self.words self.old self.new position.old 1 (if value then 1 else 0) }
        ensures advances { position.new ≡ position.old + 1 }
    {
        self.init_successive_bit(position, value);
    }

    /// Replaces the `len` bits from `begin` on by the number `v`, lowest first.
    ///
    /// # Conditions
    /// They are in range; `len` is 0 to 63; `v` is below 2^`len`.
    fn set_bits(&mut self, begin: usize, v: u64, len: u8)
        requires in_range { IsInRange (Self.words self.old) begin len }
        requires width { len ≤ 63 }
        requires fits { v < 2 ^ len }
        ensures same { LendsSame Self.lender Self.words self.old self.new }
        ensures after { Replaces Self.words self.old self.new begin len v };

    /// As `set_bits`, under the same conditions.
    #[inline(always)]
    fn set_bits_unchecked(&mut self, begin: usize, v: u64, len: u8)
        requires in_range { IsInRange (Self.words self.old) begin len }
        requires width { len ≤ 63 }
        requires fits { v < 2 ^ len }
        ensures same { LendsSame Self.lender Self.words self.old self.new }
        ensures after { Replaces Self.words self.old self.new begin len v }
    {
        self.set_bits(begin, v, len);
    }

    /// Makes the `len` bits from `begin` on, which are 0 or already the number `v`, the number `v`, lowest first.
    ///
    /// # Conditions
    /// They are in range, and as a number 0 or `v`; `len` is 0 to 64; `v` is below 2^`len`.
    fn init_bits(&mut self, begin: usize, v: u64, len: u8)
        requires in_range { IsInRange (Self.words self.old) begin len }
        requires width { len ≤ 64 }
        requires fits { v < 2 ^ len }
        requires clear { IsClearOrAlready (bits_of (Self.words self.old)) begin len v }
        ensures same { LendsSame Self.lender Self.words self.old self.new }
        ensures after { Replaces Self.words self.old self.new begin len v };

    /// As `init_bits`, under the same conditions.
    #[inline(always)]
    fn init_bits_unchecked(&mut self, begin: usize, v: u64, len: u8)
        requires in_range { IsInRange (Self.words self.old) begin len }
        requires width { len ≤ 64 }
        requires fits { v < 2 ^ len }
        requires clear { IsClearOrAlready (bits_of (Self.words self.old)) begin len v }
        ensures same { LendsSame Self.lender Self.words self.old self.new }
        ensures after { Replaces Self.words self.old self.new begin len v }
    {
        self.init_bits(begin, v, len);
    }

    /// Negates each bit from `begin` on at whose position `v` has a 1 bit, also past `len`: up to the end of the word,
    /// or 64 bits where `len` bits cross that end.
    ///
    /// # Conditions
    /// The `len` bits from `begin` on are in range; `len` is 0 to 64.
    fn xor_bits(&mut self, begin: usize, v: u64, len: u8)
        requires in_range { IsInRange (Self.words self.old) begin len }
        requires width { len ≤ 64 }
        ensures same { LendsSame Self.lender Self.words self.old self.new }
        ensures after { Negates Self.words self.old self.new begin len v };

    /// Replaces the `len` bits from `begin` on by the number `v`, lowest first; `begin` moves on by `len`.
    ///
    /// # Conditions
    /// They are in range; there are fewer than 2^58 words; `len` is 0 to 63; `v` is below 2^`len`.
    fn set_successive_bits(&mut self, begin: &mut usize, v: u64, len: u8)
        requires in_range { IsInRange (Self.words self.old) begin.old len }
        requires short { IsShort (Self.words self.old) }
        requires width { len ≤ 63 }
        requires fits { v < 2 ^ len }
        ensures same { LendsSame Self.lender Self.words self.old self.new }
        ensures after { Replaces Self.words self.old self.new begin.old len v }
        ensures advances { begin.new ≡ begin.old + len };

    /// Makes the `len` bits from `begin` on, which are 0 or already the number `v`, the number `v`, lowest first;
    /// `begin` moves on by `len`.
    ///
    /// # Conditions
    /// They are in range, and as a number 0 or `v`; there are fewer than 2^58 words; `len` is 0 to 64; `v` is below
    /// 2^`len`.
    fn init_successive_bits(&mut self, begin: &mut usize, v: u64, len: u8)
        requires in_range { IsInRange (Self.words self.old) begin.old len }
        requires short { IsShort (Self.words self.old) }
        requires width { len ≤ 64 }
        requires fits { v < 2 ^ len }
        requires clear { IsClearOrAlready (bits_of (Self.words self.old)) begin.old len v }
        ensures same { LendsSame Self.lender Self.words self.old self.new }
        ensures after { Replaces Self.words self.old self.new begin.old len v }
        ensures advances { begin.new ≡ begin.old + len };

    /// Negates bits from `begin` on as `xor_bits` does; `begin` moves on by `len`.
    ///
    /// # Conditions
    /// The `len` bits from `begin` on are in range; there are fewer than 2^58 words; `len` is 0 to 64.
    fn xor_successive_bits(&mut self, begin: &mut usize, v: u64, len: u8)
        requires in_range { IsInRange (Self.words self.old) begin.old len }
        requires short { IsShort (Self.words self.old) }
        requires width { len ≤ 64 }
        ensures same { LendsSame Self.lender Self.words self.old self.new }
        ensures after { Negates Self.words self.old self.new begin.old len v }
        ensures advances { begin.new ≡ begin.old + len };

    /// Replaces fragment `index` of width `s` by the number `v`, lowest bit first.
    ///
    /// # Conditions
    /// The fragment is in range; `s` is 0 to 63; `v` is below 2^`s`.
    fn set_fragment(&mut self, index: usize, v: u64, s: u8)
        requires in_range { IsFragmentInRange (Self.words self.old) index s }
        requires width { s ≤ 63 }
        requires fits { v < 2 ^ s }
        ensures same { LendsSame Self.lender Self.words self.old self.new }
        ensures after { Replaces Self.words self.old self.new (index * s) s v };

    /// As `set_fragment`, under the same conditions.
    #[inline(always)]
    fn set_fragment_unchecked(&mut self, index: usize, v: u64, s: u8)
        requires in_range { IsFragmentInRange (Self.words self.old) index s }
        requires width { s ≤ 63 }
        requires fits { v < 2 ^ s }
        ensures same { LendsSame Self.lender Self.words self.old self.new }
        ensures after { Replaces Self.words self.old self.new (index * s) s v }
    {
        self.set_fragment(index, v, s);
    }

    /// Makes fragment `index` of width `s`, whose bits are 0 or already the number `v`, the number `v`, lowest bit
    /// first.
    ///
    /// # Conditions
    /// The fragment is in range, and as a number 0 or `v`; `s` is 0 to 64; `v` is below 2^`s`.
    fn init_fragment(&mut self, index: usize, v: u64, s: u8)
        requires in_range { IsFragmentInRange (Self.words self.old) index s }
        requires width { s ≤ 64 }
        requires fits { v < 2 ^ s }
        requires clear { IsClearOrAlready (bits_of (Self.words self.old)) (index * s) s v }
        ensures same { LendsSame Self.lender Self.words self.old self.new }
        ensures after { Replaces Self.words self.old self.new (index * s) s v };

    /// As `init_fragment`, under the same conditions.
    #[inline(always)]
    fn init_fragment_unchecked(&mut self, index: usize, v: u64, s: u8)
        requires in_range { IsFragmentInRange (Self.words self.old) index s }
        requires width { s ≤ 64 }
        requires fits { v < 2 ^ s }
        requires clear { IsClearOrAlready (bits_of (Self.words self.old)) (index * s) s v }
        ensures same { LendsSame Self.lender Self.words self.old self.new }
        ensures after { Replaces Self.words self.old self.new (index * s) s v }
    {
        self.init_fragment(index, v, s);
    }

    /// Negates each bit from the begin of fragment `index` on at whose position `v` has a 1 bit, also past the
    /// fragment: up to the end of the word, or 64 bits where the fragment crosses that end.
    ///
    /// # Conditions
    /// The fragment is in range; `s` is 0 to 64.
    fn xor_fragment(&mut self, index: usize, v: u64, s: u8)
        requires in_range { IsFragmentInRange (Self.words self.old) index s }
        requires width { s ≤ 64 }
        ensures same { LendsSame Self.lender Self.words self.old self.new }
        ensures after { Negates Self.words self.old self.new (index * s) s v };

    /// Replaces fragment `index` of width `s` by the number `v`, lowest bit first; `index` moves on by one.
    ///
    /// # Conditions
    /// The fragment is in range; there are fewer than 2^58 words; `index` is below `usize::MAX`; `s` is 0 to 63; `v` is
    /// below 2^`s`.
    fn set_successive_fragment(&mut self, index: &mut usize, v: u64, s: u8)
        requires in_range { IsFragmentInRange (Self.words self.old) index.old s }
        requires short { IsShort (Self.words self.old) }
        requires room { index.old < usize.MAX }
        requires width { s ≤ 63 }
        requires fits { v < 2 ^ s }
        ensures same { LendsSame Self.lender Self.words self.old self.new }
        ensures after { Replaces Self.words self.old self.new (index.old * s) s v }
        ensures advances { index.new ≡ index.old + 1 };

    /// Makes fragment `index` of width `s`, whose bits are 0 or already the number `v`, the number `v`, lowest bit
    /// first; `index` moves on by one.
    ///
    /// # Conditions
    /// The fragment is in range, and as a number 0 or `v`; there are fewer than 2^58 words; `index` is below
    /// `usize::MAX`; `s` is 0 to 64; `v` is below 2^`s`.
    fn init_successive_fragment(&mut self, index: &mut usize, v: u64, s: u8)
        requires in_range { IsFragmentInRange (Self.words self.old) index.old s }
        requires short { IsShort (Self.words self.old) }
        requires room { index.old < usize.MAX }
        requires width { s ≤ 64 }
        requires fits { v < 2 ^ s }
        requires clear { IsClearOrAlready (bits_of (Self.words self.old)) (index.old * s) s v }
        ensures same { LendsSame Self.lender Self.words self.old self.new }
        ensures after { Replaces Self.words self.old self.new (index.old * s) s v }
        ensures advances { index.new ≡ index.old + 1 };

    /// Negates bits from the begin of fragment `index` on as `xor_fragment` does; `index` moves on by one.
    ///
    /// # Conditions
    /// The fragment is in range; there are fewer than 2^58 words; `index` is below `usize::MAX`; `s` is 0 to 64.
    fn xor_successive_fragment(&mut self, index: &mut usize, v: u64, s: u8)
        requires in_range { IsFragmentInRange (Self.words self.old) index.old s }
        requires short { IsShort (Self.words self.old) }
        requires room { index.old < usize.MAX }
        requires width { s ≤ 64 }
        ensures same { LendsSame Self.lender Self.words self.old self.new }
        ensures after { Negates Self.words self.old self.new (index.old * s) s v }
        ensures advances { index.new ≡ index.old + 1 };

    /// Exchanges fragments `i` and `j` of width `s`; nothing changes if `i` is `j`.
    ///
    /// # Conditions
    /// Both fragments are in range; `s` is 0 to 63.
    fn swap_fragments(&mut self, i: usize, j: usize, s: u8)
        requires first { IsFragmentInRange (Self.words self.old) i s }
        requires second { IsFragmentInRange (Self.words self.old) j s }
        requires width { s ≤ 63 }
        ensures same { LendsSame Self.lender Self.words self.old self.new }
        ensures swapped { bits_of (Self.words self.new)
            ≡ with_swapped (bits_of (Self.words self.old)) i j s }
        ensures kept { i ≡ j → Self.words self.new ≡ Self.words self.old };

    /// The `s` bits from `begin` on as a number, lowest first, as they were: `new_value`, called once on that number,
    /// answers what replaces them, or `None` where they stay.
    ///
    /// # Conditions
    /// The bits are in range; `s` is 0 to 63; the closure may be called on their number, and whatever answer it gives
    /// is below 2^`s`.
    fn conditionally_change_bits<F: FnOnce(u64) -> Option<u64>>(
        &mut self,
        new_value: F,
        begin: usize,
        s: u8,
    ) -> u64
        requires in_range { IsInRange (Self.words self.old) begin s }
        requires width { s ≤ 63 }
        requires callable { F.pre new_value
            (number_at (bits_of (Self.words self.old)) begin s) }
        requires fits { let old = number_at (bits_of (Self.words self.old)) begin s in
            (v : ℕ) → F.post new_value old (Some v) → v < 2 ^ s }
        ensures same { LendsSame Self.lender Self.words self.old self.new }
        ensures old { result ≡ number_at (bits_of (Self.words self.old)) begin s }
        ensures after { (answer : _) × F.post new_value result answer
            × MatchOption answer (Self.words self.new ≡ Self.words self.old)
            (Replaces Self.words self.old self.new begin s) };

    /// Fragment `index` of width `s` as a number, lowest bit first, as it was: `new_value`, called once on that number,
    /// answers what replaces it, or `None` where it stays.
    ///
    /// # Conditions
    /// The fragment is in range; `s` is 0 to 63; the closure may be called on its number, and whatever answer it gives
    /// is below 2^`s`.
    fn conditionally_change_fragment<F: FnOnce(u64) -> Option<u64>>(
        &mut self,
        new_value: F,
        index: usize,
        s: u8,
    ) -> u64
        requires in_range { IsFragmentInRange (Self.words self.old) index s }
        requires width { s ≤ 63 }
        requires callable { F.pre new_value
            (number_at (bits_of (Self.words self.old)) (index * s) s) }
        requires fits { let old = number_at (bits_of (Self.words self.old)) (index * s) s in
            (v : ℕ) → F.post new_value old (Some v) → v < 2 ^ s }
        ensures same { LendsSame Self.lender Self.words self.old self.new }
        ensures old { result ≡ number_at (bits_of (Self.words self.old)) (index * s) s }
        ensures after { (answer : _) × F.post new_value result answer
            × MatchOption answer (Self.words self.new ≡ Self.words self.old)
            (Replaces Self.words self.old self.new (index * s) s) };

    /// Replaces the `s` bits from `begin` on by the bits of `src` at the same position, where `predicate`, called once
    /// on the two numbers, the old one first, answers true.
    ///
    /// # Conditions
    /// The bits are in range in both; `s` is 0 to 63; the closure may be called on the two numbers.
    fn conditionally_copy_bits<F: FnOnce(u64, u64) -> bool>(
        &mut self,
        src: &[u64],
        predicate: F,
        begin: usize,
        s: u8,
    )
        requires in_range { IsInRange (Self.words self.old) begin s }
        requires in_source { IsInRange src.now begin s }
        requires width { s ≤ 63 }
        requires callable { F.pre predicate
            (number_at (bits_of (Self.words self.old)) begin s)
            (number_at (bits_of src.now) begin s) }
        ensures same { LendsSame Self.lender Self.words self.old self.new }
        ensures after { let old = number_at (bits_of (Self.words self.old)) begin s in
            let new = number_at (bits_of src.now) begin s in
            (taken : _) × F.post predicate old new taken
            × ReplacesIf taken Self.words self.old self.new begin s new };

    /// Replaces fragment `index` of width `s` by the same fragment of `src`, where `predicate`, called once on the two
    /// numbers, the old one first, answers true.
    ///
    /// # Conditions
    /// The fragment is in range in both; `s` is 0 to 63; the closure may be called on the two numbers.
    fn conditionally_copy_fragment<F: FnOnce(u64, u64) -> bool>(
        &mut self,
        src: &[u64],
        predicate: F,
        index: usize,
        s: u8,
    )
        requires in_range { IsFragmentInRange (Self.words self.old) index s }
        requires in_source { IsFragmentInRange src.now index s }
        requires width { s ≤ 63 }
        requires callable { F.pre predicate
            (number_at (bits_of (Self.words self.old)) (index * s) s)
            (number_at (bits_of src.now) (index * s) s) }
        ensures same { LendsSame Self.lender Self.words self.old self.new }
        ensures after { let old = number_at (bits_of (Self.words self.old)) (index * s) s in
            let new = number_at (bits_of src.now) (index * s) s in
            (taken : _) × F.post predicate old new taken
            × ReplacesIf taken Self.words self.old self.new (index * s) s new };
}
