//! Lists of queries: the numbers at a list of indices, and the successors of a list of values.
ghost use Rattle.std.specs.Prelude.{◌≡◌, ◌<◌, ◌↔◌, ℕ, IsTrue, List, length, slice_index, false};
ghost use Rattle.elias_fano.specs.SequenceParts.{Holds};
ghost use Rattle.bit_lists.specs.Kept.{IsKeptFrom};
ghost use Rattle.elias_fano_view.specs.Lists.{written_count, AreItems, AreEndCodes, IsListed, IsNeverWrong};
ghost use Rattle.elias_fano_view.specs.Lists.{IsIndexCode};

use crate::sequence::SequenceView;
use bitm_select::search::selected::{NO_ANSWER, WRONG_TABLES};
use bitm_tables::answer::Answer;
use tuning::SELECTIONS_SIDE_BY_SIDE;

/// How far a list of indices was answered.
#[derive(Clone, Copy, PartialEq, Eq, Debug)]
pub enum ListAnswer {
    /// All numbers were written.
    All,
    /// There is no number at the index that is this item of the list; the numbers of the items before it were written.
    AbsentAt(usize),
    /// At this item of the list the parts turned out to form no sequence; the numbers of the items before it were
    /// written.
    WrongAt(usize),
    /// `out` is not as long as the list of indices; nothing was written.
    WrongLength,
}

impl<'a> SequenceView<'a> {
    /// Writes the number at each index of the list, up to the first that is not found: what `get` answers where the
    /// parts form a sequence. In other parts a number may differ from the answer of `get`.
    pub fn get_list(&self, indices: &[usize], out: &mut [u64]) -> ListAnswer
        ensures listed { IsListed self.now.len indices.now (length out.old) result }
        ensures claimed { (xs : List ℕ) → Holds xs self.now
            → AreItems xs indices.now (written_count (length indices.now) result) out.new }
        ensures right { (xs : List ℕ) → Holds xs self.now → IsNeverWrong result }
        ensures kept { IsKeptFrom (written_count (length indices.now) result) out.old out.new }
    {
        if out.len() != indices.len() {
            return ListAnswer::WrongLength;
        }
        let mut ones = [0; SELECTIONS_SIDE_BY_SIDE];
        for at in 0..indices.len() {
            self.select_ahead(indices, at, &mut ones);
            match self.item_by_code(indices[at], ones[at % SELECTIONS_SIDE_BY_SIDE]) {
                Answer::Found(number) => out[at] = number,
                Answer::Absent => return ListAnswer::AbsentAt(at),
                Answer::Wrong => return ListAnswer::WrongAt(at),
            }
        }
        ListAnswer::All
    }

    /// Writes the successor of each value, or `NO_ANSWER` for `Absent` and `WRONG_TABLES` for `Wrong`: what
    /// `first_at_least` answers where the parts form a sequence. In other parts an index may differ from the answer of
    /// `first_at_least`. Returns false, and writes nothing, exactly where `out` is not as long as `values`.
    pub fn first_at_least_list(&self, values: &[u64], out: &mut [usize]) -> bool
        ensures room { IsTrue result ↔ length out.old ≡ length values.now }
        ensures claimed { IsTrue result → (j : ℕ) → j < length values.now
            → IsIndexCode self.now (slice_index values.now j) (slice_index out.new j) }
        ensures kept { result ≡ false → out.new ≡ out.old }
    {
        if out.len() != values.len() {
            return false;
        }
        let mut begins = [0; SELECTIONS_SIDE_BY_SIDE];
        let mut ends = [0; SELECTIONS_SIDE_BY_SIDE];
        for at in 0..values.len() {
            self.zeros_ahead(values, at, 1, &mut begins);
            self.ends_ahead(values, at, &mut ends);
            let (begin, end) = (
                begins[at % SELECTIONS_SIDE_BY_SIDE],
                ends[at % SELECTIONS_SIDE_BY_SIDE],
            );
            out[at] = self.first_code(values[at], begin, end);
        }
        true
    }

    /// The code of the successor of `v`, from the codes of the 0 bits at the ends of its bucket: an index, `NO_ANSWER`
    /// or `WRONG_TABLES`.
    #[inline(always)]
    fn first_code(&self, v: u64, begin: usize, end: usize) -> usize
        requires { AreEndCodes self.now v begin end }
        ensures { IsIndexCode self.now v result }
    {
        let _ = self.len(); // its clause makes the limit of the length known to the proof
        match self.index_by_codes(v, begin, end) {
            Answer::Found(index) => index,
            Answer::Absent => NO_ANSWER,
            Answer::Wrong => WRONG_TABLES,
        }
    }
}
