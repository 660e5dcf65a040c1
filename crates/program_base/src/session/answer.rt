//! What the program answers to a line.
ghost use Rattle.std.specs.Prelude.{◌≡◌, Some, MatchOption};
ghost use Rattle.program_base.specs.Answer.{answer_text, is_good};

use std::fmt;

/// The answer to one line.
#[derive(Clone, Copy, Debug, PartialEq, Eq)]
pub(crate) enum Answer {
    /// The vector has this number of words, or the bit at this position was changed.
    Accepted(u64),
    /// The index that was built counts this number of 1 bits.
    Ones(u64),
    /// The number that the query answers.
    Number(u64),
    /// There is no such position.
    Absent,
    /// No index that could answer is built.
    NotBuilt,
    /// Memory was refused.
    NoMemory,
    /// The line is no command.
    BadCommand,
}

impl fmt::Display for Answer {
    ghost output = { λ a. Some (answer_text a) };

    fn fmt<W: fmt::Write>(&self, f: &mut fmt::Formatter<W>) -> fmt::Result {
        match self {
            Answer::Accepted(number) => write!(f, "ok {number}"),
            Answer::Ones(count) => write!(f, "ones {count}"),
            Answer::Number(number) => write!(f, "{number}"),
            Answer::Absent => write!(f, "none"),
            Answer::NotBuilt => write!(f, "not built"),
            Answer::NoMemory => write!(f, "no memory"),
            Answer::BadCommand => write!(f, "bad command"),
        }
    }
}

impl Answer {
    /// The answer for a position, or that there is none.
    pub(crate) fn of_position(position: Option<usize>) -> Answer
        ensures { MatchOption position (result ≡ Answer.Absent) (λ p. result ≡ Answer.Number p) }
    {
        match position {
            Some(position) => Answer::Number(position as u64),
            None => Answer::Absent,
        }
    }

    /// Whether the line was a command.
    pub(crate) fn is_good(&self) -> bool
        ensures { result ≡ is_good self.now }
    {
        *self != Answer::BadCommand
    }
}
