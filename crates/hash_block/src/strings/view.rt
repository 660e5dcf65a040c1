//! Strings with a number each, in memory that may hold anything.
ghost use Rattle.std.specs.Prelude.{◌≡◌, ◌+◌, ◌-◌, ◌*◌, ◌^◌, ◌<◌, ◌≤◌, ◌↔◌, IsTrue, ℕ, length, slice_index, SomeIff};
ghost use Rattle.bitm_tables.specs.Reads.{none_read, ReadsAtMost};
ghost use Rattle.hash_block.specs.Parts.{IsHash};
ghost use Rattle.perfect_hash.specs.Asking.{IsBelow, IsNumbered};
ghost use Rattle.hash_block.specs.Bytes.{bytes_from};
ghost use Rattle.hash_block.specs.Given.{given, len_of, AreGiven};
ghost use Rattle.hash_block.specs.Kinds.{IsStringKind};
ghost use Rattle.hash_block.specs.StringsParts.{IsFull, IsNotWrong, IsNumberKept, IsOwn, IsPiece, IsString};
ghost use Rattle.hash_block.specs.StringsParts.{IsStringFound};
ghost use Rattle.hash_block.specs.StringsParts.{IsStringHeld};
ghost use Rattle.hash_block.specs.StringsParts.{start_of, string_number_in, AreStrings};

use crate::HashView;
use crate::strings::bytes::{are_zero_from, is_at};
use crate::strings::given::begin_at;
use crate::strings::kinds::{hash_by, is_string_kind, stored_by};
use bitm_tables::answer::Answer;
use bitm_tables::source::counts::ReadCounts;
use std::marker::Model;

/// Strings with a number each, in memory that may hold anything: the kind of their block, which says how they are
/// hashed, a perfect hash, where the string of each number begins and the last one ends, and the words of their bytes.
///
/// Contracts see these. A call says its answer where they hold strings, and where they do not.
///
/// ```
/// let Some(names) = open(block.as_slice()) else { .. };
/// names.check();                    // true of a block that `build` wrote
/// names.find(b"ada".as_slice());    // Found(number), Absent or Wrong
/// ```
#[derive(Drop)]
pub struct StringsView<'a> {
    kind: u64,
    hash: HashView<'a>,
    starts: &'a [u64],
    bytes: &'a [u64],
}

impl<'a> Model for StringsView<'a> {
    ghost use Rattle.hash_block.specs.StringsParts.{HasStringStarts, StringParts};

    ghost Value = { StringParts };

    ghost view = { λ s. record { kind = s.kind; hash = s.hash; starts = s.starts.now; bytes = s.bytes.now } };

    ghost invariant = { λ s. HasStringStarts
        (record { kind = s.kind; hash = s.hash; starts = s.starts.now; bytes = s.bytes.now }) };
}

impl<'a> StringsView<'a> {
    /// Strings over the kind of a block, a hash, where each begins and the last one ends, and the words of their bytes;
    /// `None` exactly where the kind is none of strings (`STRINGS`, `FNV_STRINGS`), there is not one start more than
    /// the hash announces keys, or there are 2^58 words or more.
    ///
    /// ```
    /// StringsView::over(STRINGS, hash, &[0, 3, 8], &[0x6f65_7261_6461, 0]);   // Some(..) where hash.keys() is 2
    /// ```
    #[inline(always)]
    pub fn over(
        kind: u64,
        hash: HashView<'a>,
        starts: &'a [u64],
        bytes: &'a [u64],
    ) -> Option<StringsView<'a>>
        ensures { SomeIff result
            (IsStringKind kind × (length starts.now ≡ hash.entry.keys + 1) × (length bytes.now < 2 ^ 58))
            (record { kind = kind; hash = hash.entry; starts = starts.now; bytes = bytes.now }) }
    {
        if !is_string_kind(kind) || bytes.len() >= 1 << 58 {
            return None;
        }
        if starts.len() == 0 || starts.len() - 1 != hash.keys() {
            return None;
        }
        Some(StringsView {
            kind,
            hash,
            starts,
            bytes,
        })
    }

    /// The kind of the block, which says how the strings are hashed: `STRINGS` by SipHash-1-3, `FNV_STRINGS` by FNV-1a.
    ///
    /// ```
    /// names.kind();   // STRINGS of a block that `build` wrote
    /// ```
    #[inline(always)]
    pub fn kind(&self) -> u64
        ensures kind { result ≡ self.now.kind }
        ensures strings { IsStringKind result }
    {
        self.kind
    }

    /// The hash.
    ///
    /// ```
    /// names.hash().seed();   // what `hash` takes
    /// ```
    #[inline(always)]
    pub fn hash(&self) -> &HashView<'a>
        ensures { result.now ≡ self.now.hash }
    {
        &self.hash
    }

    /// Where the string of each number begins and the last one ends, in bytes.
    ///
    /// ```
    /// names.starts().len();   // 4 of three strings
    /// ```
    #[inline(always)]
    pub fn starts(&self) -> &'a [u64]
        ensures starts { result.now ≡ self.now.starts }
        ensures count { length result.now ≡ self.now.hash.keys + 1 }
    {
        self.starts
    }

    /// The words of the bytes of all strings, the lowest byte of a word first.
    ///
    /// ```
    /// names.bytes().len();   // 2 of up to 16 bytes
    /// ```
    #[inline(always)]
    pub fn bytes(&self) -> &'a [u64]
        ensures bytes { result.now ≡ self.now.bytes }
        ensures short { length result.now < 2 ^ 58 }
    {
        self.bytes
    }

    /// How many strings the hash announces.
    ///
    /// ```
    /// names.len();   // 3
    /// ```
    #[inline(always)]
    pub fn len(&self) -> usize
        ensures { result ≡ self.now.hash.keys }
    {
        self.hash.keys()
    }

    /// The number of a string.
    ///
    /// Whatever the memory holds, the string of the number that is found is this one. Where it holds strings, the
    /// answer is `Absent` exactly where this is none of them, and never `Wrong`.
    ///
    /// # Cost
    /// The cost of `find_counted`.
    ///
    /// ```
    /// names.find(b"ada".as_slice());   // Found(number), Absent or Wrong
    /// ```
    #[inline]
    pub fn find(&self, string: &[u8]) -> Answer<usize>
        ensures held { IsStringHeld self.now (slice_index string.now) (length string.now) result }
        ensures found { AreStrings self.now
            → IsStringFound self.now (slice_index string.now) (length string.now) result }
    {
        self.find_counted(string).0
    }

    /// The answer of `find`, and the reads of the hash for it, whatever the memory holds: at most one word of each
    /// level, and one upper entry, one lower entry and eight words for the rank. Of the starts at most two are read,
    /// and no more bytes than the string has (evident from the code).
    ///
    /// ```
    /// names.find_counted(b"ada".as_slice()).1.words();   // at most 9 of one level
    /// ```
    #[inline]
    pub fn find_counted(&self, string: &[u8]) -> (Answer<usize>, ReadCounts)
        ensures held { IsStringHeld self.now (slice_index string.now) (length string.now) result.0 }
        ensures found { AreStrings self.now
            → IsStringFound self.now (slice_index string.now) (length string.now) result.0 }
        ensures reads { ReadsAtMost none_read result.1 1 1 (length self.now.hash.sizes + 8) }
    {
        self.find_between(string, 0, string.len())
    }

    /// The number of string `i` of the strings that stand one after another in `bytes`, each up to its end, as `find`.
    ///
    /// # Conditions
    /// The ends rise up to the number of the bytes, and there is such a string.
    /// # Cost
    /// The cost of `find_counted`.
    ///
    /// ```
    /// names.find_given(b"adabob".as_slice(), &[3, 6], 1);   // as names.find(b"bob".as_slice())
    /// ```
    #[inline]
    pub fn find_given(&self, bytes: &[u8], ends: &[usize], i: usize) -> Answer<usize>
        requires given { AreGiven bytes.now ends.now }
        requires inside { i < length ends.now }
        ensures held { IsStringHeld self.now (given bytes.now ends.now i) (len_of ends.now i) result }
        ensures found { AreStrings self.now
            → IsStringFound self.now (given bytes.now ends.now i) (len_of ends.now i) result }
    {
        self.find_between(bytes, begin_at(ends, i), ends[i]).0
    }

    /// The number of the string that stands in `bytes` from `begin` on and before `end`, and the reads.
    #[inline(always)]
    fn find_between(&self, bytes: &[u8], begin: usize, end: usize) -> (Answer<usize>, ReadCounts)
        requires order { begin ≤ end }
        requires inside { end ≤ length bytes.now }
        ensures held { IsStringHeld self.now (bytes_from bytes.now begin) (end - begin) result.0 }
        ensures found { AreStrings self.now
            → IsStringFound self.now (bytes_from bytes.now begin) (end - begin) result.0 }
        ensures reads { ReadsAtMost none_read result.1 1 1 (length self.now.hash.sizes + 8) }
    {
        let (number, reads) = self.number_of(bytes, begin, end);
        (self.kept_if(bytes, begin, end - begin, number), reads)
    }

    /// The number of the string by its hash, and the reads.
    #[inline(always)]
    fn number_of(&self, bytes: &[u8], begin: usize, end: usize) -> (Answer<usize>, ReadCounts)
        requires order { begin ≤ end }
        requires inside { end ≤ length bytes.now }
        ensures below { IsBelow self.now.hash.keys result.0 }
        ensures number { IsHash self.now.hash → IsNumbered
            (string_number_in self.now (bytes_from bytes.now begin) (end - begin)) result.0 }
        ensures reads { ReadsAtMost none_read result.1 1 1 (length self.now.hash.sizes + 8) }
    {
        let sum = hash_by(self.kind, self.hash.seed(), bytes, begin, end);
        self.hash.get_counted(sum)
    }

    /// A number, where its string is this one; else the string is absent.
    #[inline(always)]
    fn kept_if(
        &self,
        bytes: &[u8],
        begin: usize,
        len: usize,
        number: Answer<usize>,
    ) -> Answer<usize>
        requires inside { begin + len ≤ length bytes.now }
        requires below { IsBelow self.now.hash.keys number }
        ensures { IsNumberKept self.now (bytes_from bytes.now begin) len number result }
    {
        match number {
            Answer::Found(number) if !self.is_string(number, bytes, begin, len) => Answer::Absent,
            answer => answer,
        }
    }

    /// Where the string of a number begins and ends.
    #[inline(always)]
    fn ends_of(&self, number: usize) -> (usize, usize)
        requires { number < self.now.hash.keys }
        ensures begin { result.0 ≡ start_of self.now number }
        ensures end { result.1 ≡ start_of self.now (number + 1) }
    {
        let starts = self.starts();
        (starts[number] as usize, starts[number + 1] as usize)
    }

    /// Whether the string of a number is this one.
    fn is_string(&self, number: usize, bytes: &[u8], begin: usize, len: usize) -> bool
        requires inside { begin + len ≤ length bytes.now }
        requires below { number < self.now.hash.keys }
        ensures { IsTrue result ↔ IsString self.now number (bytes_from bytes.now begin) len }
    {
        let (first, end) = self.ends_of(number);
        if end > 8 * self.bytes.len() || first > end || end - first != len {
            return false;
        }
        is_at(self.bytes, first, bytes, begin, len)
    }

    /// Where the string of a number begins among the bytes, and how many bytes it has, which stand in the words
    /// whatever the memory holds; `Absent` exactly where there is no such number, and `Wrong` exactly where the starts
    /// mark no string there.
    ///
    /// # Cost
    /// Two starts are read (evident from the code).
    ///
    /// ```
    /// names.get(0);   // Found((0, 3)), say: three bytes from the first on
    /// ```
    #[inline]
    pub fn get(&self, number: usize) -> Answer<(usize, usize)>
        ensures piece { IsPiece self.now number result }
        ensures right { AreStrings self.now → IsNotWrong result }
    {
        if number >= self.hash.keys() {
            return Answer::Absent;
        }
        let (begin, end) = self.ends_of(number);
        if end > 8 * self.bytes.len() || begin > end {
            return Answer::Wrong;
        }
        Answer::Found((begin, end - begin))
    }

    /// Whether the parts hold strings: a hash, by which each string has its number, with the strings one after another
    /// and zeros after the last.
    ///
    /// # Cost
    /// The cost of `HashView::check`, one pass over the starts and two over the bytes, and `HashView::get` for each
    /// string (evident from the code).
    ///
    /// ```
    /// names.check();   // true of a block that `build` wrote
    /// ```
    pub fn check(&self) -> bool
        ensures { IsTrue result ↔ AreStrings self.now }
    {
        self.hash.check() && self.starts[0] == 0 && self.is_full() && self.are_own()
    }

    /// Whether there are exactly the words that the bytes take, and the bytes after the last string are 0.
    fn is_full(&self) -> bool
        ensures { IsTrue result ↔ IsFull self.now }
    {
        let last = self.starts[self.hash.keys()] as usize;
        self.bytes.len() == last.div_ceil(8) && are_zero_from(self.bytes, last)
    }

    /// Whether each string has its number.
    fn are_own(&self) -> bool
        requires hash { IsHash self.now.hash }
        requires full { IsFull self.now }
        ensures { IsTrue result ↔ ((v : ℕ) → v < self.now.hash.keys → IsOwn self.now v) }
    {
        for v in 0..self.hash.keys() {
            if !self.is_own(v) {
                return false;
            }
        }
        true
    }

    /// Whether string `v` has its number.
    fn is_own(&self, v: usize) -> bool
        requires hash { IsHash self.now.hash }
        requires full { IsFull self.now }
        requires inside { v < self.now.hash.keys }
        ensures { IsTrue result ↔ IsOwn self.now v }
    {
        let (begin, end) = self.ends_of(v);
        if begin > end || end > self.starts[self.hash.keys()] as usize {
            return false;
        }
        let hash = stored_by(self.kind, self.hash.seed(), self.bytes, begin, end);
        match self.hash.get(hash) {
            Answer::Found(number) => number == v,
            _ => false,
        }
    }
}
