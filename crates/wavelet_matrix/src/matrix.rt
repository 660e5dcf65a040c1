//! The type of a matrix: how it is built, and its parts.
ghost use Rattle.std.specs.Prelude.{◌≡◌, ◌==◌, ◌+◌, ◌*◌, ◌^◌, ◌<◌, ◌≤◌, true, false, All, IfOk, length};
ghost use Rattle.std.specs.Box.{boxed_slice_items};
ghost use Rattle.std.specs.Int.{div_ceil};
ghost use Rattle.bit_lists.specs.Bits.{bits_of};
ghost use Rattle.bitm_tables.specs.Reads.{none_read};
ghost use Rattle.bitm_bits.specs.Size.{saturated_size};
ghost use Rattle.levels_view.specs.Laws.{Fits};
ghost use Rattle.matrix_levels.specs.Levels.{known_of};
ghost use Rattle.matrix_levels.specs.Matrix.{IsMatrix, level_items, matrix_words, numbers_in, quarters_for};

use bitm::RankSelect101111;
use bitm_bits::GetSize;
use bitm_strategies::{BinaryRankSearch, Select0ForRank101111, SelectForRank101111};
use bitm_tables::source::Probe;
use levels_view::{Levels, LevelsView, laws};
use matrix_levels::{known_for, make_levels, quarters_unless};
use std::alloc::{AllocError, Global};
use std::boxed::BoxedSlice;
use std::marker::Model;

/// Numbers of up to 64 bits, kept bit by bit, and generic in the strategies that select 1 bits and 0 bits.
///
/// Level `d` has one bit for each number, its bit `width - 1 - d`; before the next level the numbers are partitioned by
/// that bit, those with a 0 first, each kind in its order. All levels stand side by side in one bit vector under one
/// index: `n` numbers of `w` bits take `n * w` bits and the index, and sixteen bytes for each level. A table has for
/// each number of some of the highest bits the index where the numbers that begin with it start after these levels, so
/// that a rank walks through these levels once and not twice. It has as many bits as leave its words no more than a
/// 64th of these bits.
///
/// A rank on a level goes by quarters (`bitm::rank_by_quarters_on`), which take an eighth of these bits: it reads at
/// most two words and no lower entry. A compact matrix (`build_compact`) has no quarters; there a rank goes by the
/// index alone (`bitm::rank_on`) and reads at most eight words and one lower entry, so its answers take longer.
///
/// For 3, 1, 4, 1, 5, 1 of three bits:
///
/// ```text
/// level 0   3 1 4 1 5 1   bit 2: 0 0 1 0 1 0
/// level 1   3 1 1 1 4 5   bit 1: 1 0 0 0 0 0
/// level 2   1 1 1 4 5 3   bit 0: 1 1 1 0 1 1
/// at last   4 1 1 1 5 3   the 1s are side by side: three of them, from index 1 on
/// ```
///
/// # Source
/// Claude, Navarro and Ordóñez, 'The wavelet matrix: An efficient wavelet tree for large alphabets'
/// (Information Systems 47, 2015).
#[derive(Drop)]
pub struct WaveletMatrix<S: SelectForRank101111, S0: Select0ForRank101111> {
    levels: Levels,
    index: RankSelect101111<S, S0, BoxedSlice<u64, Global>>,
}

impl<S: SelectForRank101111, S0: Select0ForRank101111> Model for WaveletMatrix<S, S0> {
    ghost use Rattle.std.specs.Box.{boxed_slice_items};
    ghost use Rattle.bit_lists.specs.Bits.{bits_of};
    ghost use Rattle.matrix_levels.specs.Matrix.{level_items, IsMatrixOf, IsTight};
    ghost use Rattle.wavelet_matrix.specs.MatrixValue.{Numbers};

    ghost Value = { Numbers S S0 };

    ghost view = { λ m. record {
      items = level_items (bits_of (boxed_slice_items m.index.content)) m.levels.width m.levels.len;
      width = m.levels.width;
      compact = m.levels.compact;
      select = m.index.select;
      select0 = m.index.select0;
    } };

    ghost invariant = { λ m. let bits = bits_of (boxed_slice_items m.index.content) in
        IsMatrixOf (level_items bits m.levels.width m.levels.len) m.levels bits
        × IsTight m.levels (boxed_slice_items m.index.content) };
}

impl<S: SelectForRank101111, S0: Select0ForRank101111> WaveletMatrix<S, S0> {
    /// A matrix of the numbers, which are not changed.
    ///
    /// # Conditions
    /// The width is 1 to 64, no number has more bits than that (`all_fit`), and all bits together are fewer than 2^63.
    /// # Errors
    /// `AllocError` if memory was refused; nothing is left.
    /// # Cost
    /// Two copies of the numbers are kept while the levels are written.
    pub fn build(alloc: Global, numbers: &[u64], width: u8) -> Result<Self, AllocError>
        requires some { 1 ≤ width }
        requires most { width ≤ 64 }
        requires short { width * length numbers.now < 2 ^ 63 }
        requires fit { All (λ x. x < 2 ^ width) numbers.now }
        ensures items { IfOk result (λ made. made.items ≡ numbers.now) }
        ensures width { IfOk result (λ made. made.width ≡ width) }
        ensures compact { IfOk result (λ made. made.compact ≡ false) }
    {
        Self::build_by(alloc, numbers, width, false)
    }

    /// A matrix of the numbers, which are not changed, without quarters: it takes an eighth of the bits less than the
    /// matrix of `build`, and its answers take longer.
    ///
    /// # Conditions
    /// The conditions of `build`.
    /// # Errors
    /// `AllocError` if memory was refused; nothing is left.
    /// # Cost
    /// The cost of `build`.
    pub fn build_compact(alloc: Global, numbers: &[u64], width: u8) -> Result<Self, AllocError>
        requires some { 1 ≤ width }
        requires most { width ≤ 64 }
        requires short { width * length numbers.now < 2 ^ 63 }
        requires fit { All (λ x. x < 2 ^ width) numbers.now }
        ensures items { IfOk result (λ made. made.items ≡ numbers.now) }
        ensures width { IfOk result (λ made. made.width ≡ width) }
        ensures compact { IfOk result (λ made. made.compact ≡ true) }
    {
        Self::build_by(alloc, numbers, width, true)
    }

    /// A matrix of the numbers, compact or with quarters.
    fn build_by(
        alloc: Global,
        numbers: &[u64],
        width: u8,
        compact: bool,
    ) -> Result<Self, AllocError>
        requires some { 1 ≤ width }
        requires most { width ≤ 64 }
        requires short { width * length numbers.now < 2 ^ 63 }
        requires fit { All (λ x. x < 2 ^ width) numbers.now }
        ensures items { IfOk result (λ made. made.items ≡ numbers.now) }
        ensures width { IfOk result (λ made. made.width ≡ width) }
        ensures compact { IfOk result (λ made. made.compact ≡ compact) }
    {
        let content = make_levels(alloc, numbers, width)?;
        Self::from_levels(alloc, content, numbers.len(), width, compact)
    }

    /// A matrix of the numbers whose levels the words have from the first bit on, as `matrix_levels::write_levels`
    /// writes them; the words are kept. Any bits are the levels of some numbers: level by level each bit says where the
    /// item goes, and the bits that it meets on its way are the bits of its number.
    ///
    /// # Conditions
    /// The width is 1 to 64, all bits together are fewer than 2^63, and there are exactly the words that these take.
    /// # Errors
    /// `AllocError` if memory was refused; nothing is left.
    /// # Cost
    /// One pass over the words, and two ranks for each level. It keeps what it allocates: the index, the tables of the
    /// levels, and unless the matrix is compact the quarters.
    ///
    /// ```
    /// let mut words = BoxedSlice::with_zeroed_bits(alloc, 3 * 6)?;
    /// let mut numbers = [3u32, 1, 4, 1, 5, 1];
    /// write_levels_of(words.as_mut_slice(), numbers.as_mut_slice(), [0u32; 6].as_mut_slice(), 3);
    /// WaveletMatrix::from_levels(alloc, words, 6, 3, false)?;   // of 3, 1, 4, 1, 5, 1
    /// ```
    pub fn from_levels(
        alloc: Global,
        content: BoxedSlice<u64, Global>,
        len: usize,
        width: u8,
        compact: bool,
    ) -> Result<Self, AllocError>
        requires some { 1 ≤ width }
        requires most { width ≤ 64 }
        requires short { width * len < 2 ^ 63 }
        requires words { length (boxed_slice_items content) ≡ matrix_words len width }
        ensures items { IfOk result (λ made.
            made.items ≡ level_items (bits_of (boxed_slice_items content)) width len) }
        ensures width { IfOk result (λ made. made.width ≡ width) }
        ensures compact { IfOk result (λ made. made.compact ≡ compact) }
    {
        let Ok((index, _ones)) = RankSelect101111::build(alloc, content) else {
            return Err(AllocError);
        };
        let quarters = quarters_unless(alloc, &mut index.probe(), compact)?;
        let mut levels = Levels::new(alloc, &index, len, width, compact, quarters)?;
        let known = known_for(len, width);
        levels.keep_starts(alloc, &mut index.probe(), known)?;
        Ok(WaveletMatrix { levels, index })
    }

    /// Whether it was built without quarters, by `build_compact`: its ranks go by the index alone.
    #[inline(always)]
    pub fn is_compact(&self) -> bool
        ensures { result ≡ self.now.compact }
    {
        self.levels.is_compact()
    }

    /// How many numbers there are.
    #[inline(always)]
    pub fn len(&self) -> usize
        ensures { result ≡ length self.now.items }
    {
        self.levels.len()
    }

    /// Whether there are none.
    #[inline(always)]
    pub fn is_empty(&self) -> bool
        ensures { result ≡ (length self.now.items == 0) }
    {
        self.levels.len() == 0
    }

    /// How many bits each number has at most, as said when the matrix was built: 1 to 64.
    #[inline(always)]
    pub fn width(&self) -> u8
        ensures value { result ≡ self.now.width }
        ensures some { 1 ≤ result }
        ensures most { result ≤ 64 }
        ensures fit { All (λ x. x < 2 ^ self.now.width) self.now.items }
    {
        self.levels.width()
    }

    /// The levels, and a source over the words and tables, with no reads counted yet: what the calls of `LevelsView`
    /// take.
    #[inline(always)]
    pub fn parts(&self) -> (LevelsView<'_>, Probe<'_>)
        ensures fits { Fits result.0 result.1.lists }
        ensures matrix { IsMatrix result.0 result.1.lists }
        ensures items { numbers_in result.0 result.1.lists ≡ self.now.items }
        ensures len { result.0.len ≡ length self.now.items }
        ensures width { result.0.width ≡ self.now.width }
        ensures compact { result.0.compact ≡ self.now.compact }
        ensures known { result.0.known ≡ known_of (length self.now.items) self.now.width }
        ensures fit { All (λ x. x < 2 ^ self.now.width) self.now.items }
        ensures reads { result.1.reads ≡ none_read }
    {
        let (levels, _index, probe) = self.all_parts();
        (levels, probe)
    }

    /// The parts, and between them the index, which selects in the words of the source.
    #[inline(always)]
    pub(crate) fn all_parts(
        &self,
    ) -> (
        LevelsView<'_>,
        &RankSelect101111<S, S0, BoxedSlice<u64, Global>>,
        Probe<'_>,
    )
        ensures fits { Fits result.0 result.2.lists }
        ensures matrix { IsMatrix result.0 result.2.lists }
        ensures items { numbers_in result.0 result.2.lists ≡ self.now.items }
        ensures len { result.0.len ≡ length self.now.items }
        ensures width { result.0.width ≡ self.now.width }
        ensures compact { result.0.compact ≡ self.now.compact }
        ensures known { result.0.known ≡ known_of (length self.now.items) self.now.width }
        ensures fit { All (λ x. x < 2 ^ self.now.width) self.now.items }
        ensures selects { result.2.lists.words ≡ boxed_slice_items result.1.now.content }
        ensures reads { result.2.reads ≡ none_read }
    {
        laws::matrices_fit();
        let probe = self.index.probe();
        (self.levels.lend(), &self.index, probe)
    }

    /// A copy of the matrix, with strategies of its own.
    ///
    /// # Errors
    /// `AllocError` if memory was refused; this value is as it was.
    pub fn try_clone(&self, alloc: Global) -> Result<Self, AllocError>
        ensures items { IfOk result (λ copy. copy.items ≡ self.now.items) }
        ensures width { IfOk result (λ copy. copy.width ≡ self.now.width) }
        ensures compact { IfOk result (λ copy. copy.compact ≡ self.now.compact) }
    {
        let levels = self.levels.try_clone(alloc)?;
        let index = self.index.try_clone(alloc)?;
        Ok(WaveletMatrix { levels, index })
    }
}

impl<S: SelectForRank101111 + GetSize, S0: Select0ForRank101111 + GetSize> GetSize
    for WaveletMatrix<S, S0> {
    // the words, eight bytes for each 2^26 of them, each 32 and, unless it is compact, each eight, all rounded up, the
    // two strategies, sixteen bytes for each level, and eight for each number of the known digits
    ghost dyn_bytes = { λ m. let n = length m.items in let words = matrix_words n m.width in
        saturated_size (8 * words + 8 * div_ceil words (2 ^ 26) + 8 * div_ceil words 32
        + 8 * quarters_for m.compact words + S.dyn_bytes m.select + S0.dyn_bytes m.select0
        + 16 * m.width + 8 * 2 ^ known_of n m.width) };

    const USES_DYN_MEM: bool = true;

    #[tactic(auto, using(matrix_levels::proofs::lemmas::MatrixLemmas::quarters_of_words))]
    fn size_bytes_dyn(&self) -> usize {
        self.index
            .size_bytes_dyn()
            .saturating_add(self.levels.size_bytes_dyn())
    }
}

/// A matrix that selects by binary search, and keeps nothing for it.
pub type BinaryWaveletMatrix = WaveletMatrix<BinaryRankSearch, BinaryRankSearch>;
