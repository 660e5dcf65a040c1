//! The parts of a sequence that came from elsewhere and may be wrong: checked once, and queried.
ghost use Rattle.std.specs.Prelude.{◌≡◌, ◌<◌, ◌≤◌, ◌↔◌, ℕ, List, IfOk, IsErr, MatchOption};
ghost use Rattle.std.specs.List.{All, Contains};
ghost use Rattle.elias_fano_view.specs.SequenceParts.{AreParts, Holds};

use elias_fano_view::{Answer, SequenceView};

/// The parts form no sequence.
#[derive(Clone, Copy, Debug, PartialEq, Eq)]
pub struct NoSequence;

/// The least number that is at least `v`; `None` where each number is less.
///
/// # Errors
/// `NoSequence` exactly where the parts form no sequence.
pub fn least_from(sequence: &SequenceView<'_>, v: u64) -> Result<Option<u64>, NoSequence>
    ensures found { (xs : List ℕ) → Holds xs sequence.now → IfOk result
        (λ o. MatchOption o (All (λ x. x < v) xs)
        (λ y. Contains xs y × (v ≤ y) × All (λ x. v ≤ x → y ≤ x) xs)) }
    ensures refused { IsErr result ↔ ¬ (AreParts sequence.now) }
{
    if !sequence.check() {
        return Err(NoSequence);
    }
    let position = match sequence.first_at_least(v) {
        Answer::Found(position) => position,
        Answer::Absent => return Ok(None),
        // No parts that were tried are called wrong.
        Answer::Wrong => unreachable!(),
    };
    match sequence.get(position) {
        Answer::Found(number) => Ok(Some(number)),
        Answer::Absent => unreachable!(),
        Answer::Wrong => unreachable!(),
    }
}
