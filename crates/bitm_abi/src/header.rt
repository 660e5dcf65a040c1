//! The header of a file with an index or a sequence: which lengths it can have, and how it is read.
ghost use Rattle.std.specs.Prelude.{◌≡◌, ◌+◌, ◌*◌, ◌<◌, ◌≤◌, ◌↔◌, ◌⊎◌, IfSome, IsTrue, SomeIff, length};
ghost use Rattle.bitm_abi.specs.Stored.{header_in, span_in, HasSampleLens, IsBoundedHeader, IsHeaded};
ghost use Rattle.bitm_abi.specs.Stored.{IsIndexHeader, IsIndexHeaderOf, IsLaidOut, IsSequenceHeader, IsSequenceOf};
ghost use Rattle.bitm_abi.specs.Stored.{LiesWithin};

use crate::layout::{Span, Stored};
use crate::sequence::SequenceLens;
use tables_view::samples_len;

/// The size of the header in words.
pub const HEADER_WORDS: usize = 24;

/// Whether the given number of words can have `len` samples of that logarithm; 0 stands for no samples.
#[inline(always)]
fn has_sample_lens(words: u64, log2: u64, len: u64) -> bool
    ensures { IsTrue result ↔ HasSampleLens words log2 len }
{
    if log2 == 0 {
        return len == 0;
    }
    log2 >= 7 && log2 <= 31 && len <= samples_len(words as usize, log2 as u8) as u64
}

impl Stored {
    /// Whether an index can have these lengths.
    #[inline(always)]
    fn is_index(&self) -> bool
        ensures { IsTrue result ↔ IsIndexHeader self.now }
    {
        self.kind == 1
            && self.len <= u64::MAX - 63
            && self.width == 0
            && self.words.len == self.len.div_ceil(64)
            && self.low.len == 0
            && has_sample_lens(self.words.len, self.ones_log2, self.samples.len)
            && has_sample_lens(self.words.len, self.zeros_log2, self.samples0.len)
    }

    /// Whether a sequence can have these lengths.
    #[inline(always)]
    fn is_sequence(&self) -> bool
        ensures { IsTrue result ↔ IsSequenceHeader self.now }
    {
        self.kind == 2
            && self.len < 1 << 56
            && self.width <= 63
            && self.words.len < 1 << 58
            && self.low.len == (self.len * self.width).div_ceil(64)
            && self.ones_log2 == 0
            && self.samples.len == 0
            && self.zeros_log2 == 0
            && self.samples0.len == 0
    }

    /// Whether an index or a sequence can have these lengths.
    #[inline(always)]
    pub fn has_shape(&self) -> bool
        ensures shape { IsTrue result ↔ (IsIndexHeader self.now ⊎ IsSequenceHeader self.now) }
        ensures bounded { IsTrue result → IsBoundedHeader self.now }
    {
        self.is_index() || self.is_sequence()
    }

    /// Whether the offset of each part, the size of the file and the checksum are right.
    #[inline(always)]
    #[tactic(auto, using(crate::proofs::StoredLemmas::moved, crate::proofs::StoredLemmas::same_layout))]
    pub fn is_laid_out(&self) -> bool
        requires { IsBoundedHeader self.now }
        ensures { IsTrue result ↔ IsLaidOut self.now }
    {
        self.is(&self.laid_out())
    }
}

/// The part that two words of a file describe.
#[inline(always)]
fn span_at(file: &[u64], at: usize) -> Span
    requires { at + 1 < length file.now }
    ensures { result ≡ span_in file.now at }
{
    Span {
        at: file[at],
        len: file[at + 1],
    }
}

/// The header that the first words of a file hold, right or wrong.
#[inline(always)]
pub fn header_at(file: &[u64]) -> Stored
    requires { 24 ≤ length file.now }
    ensures { result ≡ header_in file.now }
{
    Stored {
        mark: file[0],
        kind: file[1],
        len: file[2],
        width: file[3],
        size: file[4],
        ones_log2: file[5],
        zeros_log2: file[6],
        words: span_at(file, 7),
        upper: span_at(file, 9),
        lower: span_at(file, 11),
        low: span_at(file, 13),
        starts: span_at(file, 15),
        starts0: span_at(file, 17),
        samples: span_at(file, 19),
        samples0: span_at(file, 21),
        checksum: file[23],
    }
}

/// The header of a file that has all the parts that the header claims; `None` exactly where the file begins with no
/// header, or has fewer words than the header claims.
#[tactic(auto, using(crate::proofs::StoredLemmas::lies_within, crate::proofs::StoredLemmas::whole))]
#[inline(always)]
pub fn header_of(file: &[u64]) -> Option<Stored>
    ensures header { SomeIff result (IsHeaded file.now) (header_in file.now) }
    ensures inside { IfSome result (λ h. LiesWithin h (8 * length file.now)) }
{
    if file.len() < HEADER_WORDS {
        return None;
    }
    let header = header_at(file);
    if !header.has_shape() || header.size / 8 > file.len() as u64 {
        return None;
    }
    if !header.is_laid_out() {
        return None;
    }
    Some(header)
}

/// A part of `len` items, without its offset.
#[inline(always)]
fn items(len: u64) -> Span
    ensures { result ≡ record { at = 0; len = len } }
{
    Span { at: 0, len }
}

/// The header of an index with the lengths alone.
#[inline(always)]
pub fn index_of(len: u64, ones_log2: u32, ones: u64, zeros_log2: u32, zeros: u64) -> Stored
    ensures { IsIndexHeaderOf len ones_log2 ones zeros_log2 zeros result }
{
    Stored {
        mark: 0,
        kind: 1,
        len,
        width: 0,
        size: 0,
        ones_log2: ones_log2 as u64,
        zeros_log2: zeros_log2 as u64,
        words: items(len.div_ceil(64)),
        upper: items(0),
        lower: items(0),
        low: items(0),
        starts: items(0),
        starts0: items(0),
        samples: items(ones),
        samples0: items(zeros),
        checksum: 0,
    }
}

/// The header of a sequence with the lengths alone.
#[inline(always)]
pub fn sequence_of(len: u64, lens: &SequenceLens) -> Stored
    ensures { IsSequenceOf len lens.now result }
{
    Stored {
        kind: 2,
        width: lens.width,
        words: items(lens.words_len),
        low: items(lens.low_len),
        ..index_of(len, 0, 0, 0, 0)
    }
}
