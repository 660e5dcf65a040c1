//! What holds of every matrix, for callers whose proofs need it.
ghost use Rattle.levels_view.specs.Laws.{MatricesFit};

/// The levels of a matrix are as long as calls over any levels require, and so are words and tables.
#[tactic(auto, using(crate::proofs::LevelLemmas::matrices_fit))]
pub fn matrices_fit()
    ensures { MatricesFit }
{}
