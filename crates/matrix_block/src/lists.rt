//! Lists of numbers of a matrix in a block.
ghost use Rattle.std.specs.Prelude.{◌≡◌, ◌<◌, ◌≤◌, ◌⊎◌, ℕ, length, slice_index};
ghost use Rattle.bitm_tables.specs.declared.answer.Answer.TheVariants.{Absent, Found, Wrong};
ghost use Rattle.levels_view.specs.Walk.{IsNumberAt};

use crate::matrix::MatrixView;

impl<'a> MatrixView<'a> {
    /// Writes the number at each index, up to the first that is not found (`get` would be `Absent` or `Wrong`), and
    /// answers how many were written. The items after them are as they were. Whatever the block holds, a number has no
    /// more bits than the width. Where the block holds a matrix, each index of a number is found.
    ///
    /// # Conditions
    /// There are as many items of `out` as indices.
    /// # Cost
    /// The cost of `LevelsView::total_get_list_on`.
    ///
    /// ```
    /// let mut out = [0u64; 3];
    /// matrix.get_list(&[4, 0, 2], &mut out);   // 3: 5, 3 and 4
    /// ```
    pub fn get_list(&self, indices: &[usize], out: &mut [u64]) -> usize
        requires room { length out.old ≡ length indices.now }
        ensures most { result ≤ length indices.now }
        ensures numbers { (j : ℕ) → j < result → IsNumberAt self.now.levels self.now.lists
            (slice_index indices.now j) (Found (slice_index out.new j)) }
        ensures last { result < length indices.now
            → IsNumberAt self.now.levels self.now.lists (slice_index indices.now result) Absent
            ⊎ IsNumberAt self.now.levels self.now.lists (slice_index indices.now result) Wrong }
        ensures len { length out.new ≡ length out.old }
        ensures behind { (j : ℕ) → result ≤ j → slice_index out.new j ≡ slice_index out.old j }
    {
        let (levels, mut source) = self.parts();
        levels.total_get_list_on(&mut source, indices, out)
    }
}
