//! Where each part of a stored index or sequence is in its file.
ghost use Rattle.std.specs.Prelude.{◌≡◌, ◌+◌, ◌*◌, ◌^◌, ◌<◌, ◌≤◌, ◌↔◌, IsTrue};
ghost use Rattle.bitm_view.specs.Block.{starts_of};
ghost use Rattle.bitm_abi.specs.Stored.{header_checksum, mixed, span_from, span_mixed, IsAlike, IsBoundedHeader};
ghost use Rattle.bitm_abi.specs.Stored.{IsLaidOut};

use tables_view::{lower_len, upper_len};

/// The letters `bitm` and `tab`, and version 2. A processor with the other byte order reads another number.
const MARK: u64 = 0x0262_6174_6d74_6962;

/// The size of the header in bytes.
const HEADER_SIZE: u64 = 192;

/// A part of a file.
#[repr(C)]
#[derive(Clone, Copy)]
pub struct Span {
    /// The offset of its first item in bytes.
    pub at: u64,
    /// The number of its items.
    pub len: u64,
}

/// The header of a stored index or sequence.
#[repr(C)]
#[derive(Clone, Copy)]
pub struct Stored {
    /// The format and its version, in the byte order of this processor.
    pub mark: u64,
    /// 1 for an index, 2 for a sequence.
    pub kind: u64,
    /// The length of an index in bits, or the number of numbers of a sequence.
    pub len: u64,
    /// The number of low bits of each number of a sequence; 0 for an index.
    pub width: u64,
    /// The size of the file in bytes.
    pub size: u64,
    /// The logarithm of the samples of 1 bits, 0 if there are none.
    pub ones_log2: u64,
    /// The logarithm of the samples of 0 bits, 0 if there are none.
    pub zeros_log2: u64,
    /// The words of the bit vector, or of the high bits of a sequence.
    pub words: Span,
    /// Their upper table.
    pub upper: Span,
    /// Their lower table.
    pub lower: Span,
    /// The low bits of a sequence.
    pub low: Span,
    /// The number of samples of 1 bits before each upper block.
    pub starts: Span,
    /// The number of samples of 0 bits before each upper block.
    pub starts0: Span,
    /// The samples of 1 bits.
    pub samples: Span,
    /// The samples of 0 bits.
    pub samples0: Span,
    /// The checksum of all numbers before it.
    pub checksum: u64,
}

/// Mixes one more number into a checksum.
#[inline(always)]
fn mix(sum: u64, number: u64) -> u64
    ensures { result ≡ mixed sum number }
{
    sum.wrapping_mul(0x9e37_79b9_7f4a_7c15).wrapping_add(number)
}

impl Span {
    /// The part of `len` items that starts at the first multiple of 64 from offset `bytes` on.
    #[inline(always)]
    fn from(bytes: u64, len: u64) -> Span
        requires { bytes + 63 < 2 ^ 64 }
        ensures { result ≡ span_from bytes len }
    {
        Span {
            at: (bytes + 63) / 64 * 64,
            len,
        }
    }

    /// Whether both numbers equal the numbers of `other`.
    #[inline(always)]
    #[tactic(auto, using(crate::proofs::StoredLemmas::same_span))]
    fn is(self, other: Span) -> bool
        ensures { IsTrue result ↔ (self ≡ other) }
    {
        self.at == other.at && self.len == other.len
    }

    /// Mixes both numbers into a checksum.
    #[inline(always)]
    fn mix_into(self, sum: u64) -> u64
        ensures { result ≡ span_mixed sum self }
    {
        mix(mix(sum, self.at), self.len)
    }
}

/// The length of the list of starts beside samples of that logarithm: one for each upper block, and none where the
/// logarithm is 0.
#[inline(always)]
fn starts_len(log2: u64, upper: u64) -> u64
    ensures value { result ≡ starts_of log2 upper }
    ensures most { result ≤ upper }
{
    if log2 == 0 { 0 } else { upper }
}

impl Stored {
    /// Whether all numbers equal the numbers of `other`.
    #[inline(always)]
    #[tactic(auto, using(crate::proofs::StoredLemmas::same_stored))]
    pub(crate) fn is(&self, other: &Stored) -> bool
        ensures { IsTrue result ↔ (self.now ≡ other.now) }
    {
        self.mark == other.mark
            && self.kind == other.kind
            && self.len == other.len
            && self.width == other.width
            && self.size == other.size
            && self.ones_log2 == other.ones_log2
            && self.zeros_log2 == other.zeros_log2
            && self.words.is(other.words)
            && self.upper.is(other.upper)
            && self.lower.is(other.lower)
            && self.low.is(other.low)
            && self.starts.is(other.starts)
            && self.starts0.is(other.starts0)
            && self.samples.is(other.samples)
            && self.samples0.is(other.samples0)
            && self.checksum == other.checksum
    }

    /// The checksum of all numbers before it.
    #[inline(always)]
    fn sum(&self) -> u64
        ensures { result ≡ header_checksum self.now }
    {
        let sum = mix(mix(mix(mix(0, self.mark), self.kind), self.len), self.width);
        let sum = mix(mix(mix(sum, self.size), self.ones_log2), self.zeros_log2);
        let sum = self.upper.mix_into(self.words.mix_into(sum));
        let sum = self.low.mix_into(self.lower.mix_into(sum));
        let sum = self.starts0.mix_into(self.starts.mix_into(sum));
        self.samples0.mix_into(self.samples.mix_into(sum))
    }

    /// The header of these lengths with the offset of each part, the size of the file and the checksum.
    #[inline(always)]
    pub fn laid_out(&self) -> Stored
        requires { IsBoundedHeader self.now }
        ensures laid_out { IsLaidOut result }
        ensures alike { IsAlike result self.now }
    {
        let parts = upper_len(self.words.len as usize) as u64;
        let words = Span {
            at: HEADER_SIZE,
            len: self.words.len,
        };
        let upper = Span::from(words.at + words.len * 8, parts);
        let lower = Span::from(
            upper.at + upper.len * 8,
            lower_len(self.words.len as usize) as u64,
        );
        let low = Span::from(lower.at + lower.len * 8, self.low.len);
        let starts = Span::from(low.at + low.len * 8, starts_len(self.ones_log2, parts));
        let starts0 = Span::from(
            starts.at + starts.len * 8,
            starts_len(self.zeros_log2, parts),
        );
        let samples = Span::from(starts0.at + starts0.len * 8, self.samples.len);
        let samples0 = Span::from(samples.at + samples.len * 4, self.samples0.len);
        let end = Span::from(samples0.at + samples0.len * 4, 0);
        let mut stored = Stored {
            mark: MARK,
            size: end.at,
            words,
            upper,
            lower,
            low,
            starts,
            starts0,
            samples,
            samples0,
            checksum: 0,
            ..*self
        };
        stored.checksum = stored.sum();
        stored
    }
}
