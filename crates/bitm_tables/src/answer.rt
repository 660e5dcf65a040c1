//! The answer of a query over tables that may hold anything.
ghost use Rattle.std.specs.Prelude.{◌≡◌, ⊤, MatchOption};
ghost use Rattle.bitm_tables.specs.Answers.{Right};
ghost use Rattle.bitm_tables.specs.declared.answer.Answer.TheVariants.{Absent, Found};

/// The answer of a query over words and tables that may hold anything: a rank, a selection, a number of a sequence or
/// of a hash.
#[derive(Clone, Copy, PartialEq, Eq, Debug)]
pub enum Answer<T> {
    /// The answer.
    Found(T),
    /// There is no answer: no such position, bit or number.
    Absent,
    /// The tables do not match the words, or the parts form no sequence.
    Wrong,
}

impl<T: Copy> Answer<T> {
    /// What was found, and `None` where the answer is `Absent`.
    ///
    /// # Conditions
    /// The answer is not `Wrong`: a structure whose tables match its words never answers so.
    ///
    /// ```
    /// Answer::Found(3).right();    // Some(3)
    /// ```
    #[inline(always)]
    pub fn right(self) -> Option<T>
        requires { Right (λ _. ⊤) ⊤ self }
        ensures { MatchOption result (self ≡ Absent) (λ x. self ≡ Found x) }
    {
        match self {
            Answer::Found(found) => Some(found),
            Answer::Absent => None,
            Answer::Wrong => unreachable!(),
        }
    }
}
