//! What is handed to the calls, and how they end.

/// The words that the calls get. Each word has 1 bits at 0, 2 and 3, so there are 390. A table has five entries for
/// them, a simple rank 17, and at 128 1 bits for each sample there are four samples.
pub const WORDS: [u64; 130] = [13; 130];

/// How a call ended.
#[derive(Clone, Copy)]
pub enum Outcome {
    Answered,
    Refused,
    Unready,
    Wrong,
}

impl Outcome {
    /// The word of a line that says so.
    pub fn name(self) -> &'static str {
        match self {
            Outcome::Answered => "ok",
            Outcome::Refused => "refused",
            Outcome::Unready => "unready",
            Outcome::Wrong => "wrong",
        }
    }
}

/// A call, by the word that its line begins with, and how it ended.
pub type Ended = (&'static str, Outcome);

/// The outcome of a call that answered.
pub fn answered(right: bool) -> Outcome {
    if right {
        Outcome::Answered
    } else {
        Outcome::Wrong
    }
}

/// The outcome of a call that was refused memory: whether its arguments are unharmed.
pub fn refused(unharmed: bool) -> Outcome {
    if unharmed {
        Outcome::Refused
    } else {
        Outcome::Wrong
    }
}
