//! The answer to a line.
ghost use Rattle.std.specs.Prelude.{◌≡◌};
ghost use Rattle.program_files.specs.Reply.{answer_in_reply, as_number, is_good_reply, reply_text};

use matrix_block::Answer;
use program_base::runs::{Form, none_in};
use std::fmt;

/// The answer to a line.
#[derive(Clone, Copy)]
pub(crate) enum Reply {
    /// The number that is requested.
    Number(u64),
    /// There is none.
    Absent,
    /// The block is not as it was written.
    Wrong,
    /// The line is no question.
    BadQuestion,
}

impl fmt::Display for Reply {
    ghost use Rattle.std.specs.Prelude.{Some};

    ghost output = { λ r. Some (reply_text r) };

    fn fmt<W: fmt::Write>(&self, f: &mut fmt::Formatter<W>) -> fmt::Result {
        match self {
            Reply::Number(number) => write!(f, "{number}"),
            Reply::Absent => write!(f, "none"),
            Reply::Wrong => write!(f, "wrong block"),
            Reply::BadQuestion => write!(f, "bad question"),
        }
    }
}

impl Reply {
    /// The reply that says a number.
    pub(crate) fn of_number(answer: Answer<u64>) -> Reply
        ensures { answer_in_reply result ≡ answer }
    {
        match answer {
            Answer::Found(number) => Reply::Number(number),
            Answer::Absent => Reply::Absent,
            Answer::Wrong => Reply::Wrong,
        }
    }

    /// The reply that says a count or an index.
    pub(crate) fn of_index(answer: Answer<usize>) -> Reply
        ensures { answer_in_reply result ≡ answer }
    {
        match answer {
            Answer::Found(index) => Reply::Number(index as u64),
            Answer::Absent => Reply::Absent,
            Answer::Wrong => Reply::Wrong,
        }
    }

    /// The reply that says a bit, by 0 or 1.
    pub(crate) fn of_bit(answer: Answer<bool>) -> Reply
        ensures { answer_in_reply result ≡ as_number answer }
    {
        match answer {
            Answer::Found(bit) => Reply::Number(bit as u64),
            Answer::Absent => Reply::Absent,
            Answer::Wrong => Reply::Wrong,
        }
    }

    /// Whether the line was a question.
    pub(crate) fn is_good(&self) -> bool
        ensures { result ≡ is_good_reply self.now }
    {
        !matches!(self, Reply::BadQuestion)
    }
}

/// A reply in the form in which it is written.
#[derive(Clone, Copy)]
pub(crate) struct Written {
    /// The reply.
    pub(crate) reply: Reply,
    /// Its form.
    pub(crate) form: Form,
}

impl fmt::Display for Written {
    ghost use Rattle.std.specs.Prelude.{Some};
    ghost use Rattle.program_files.specs.Reply.{reply_in};

    ghost output = { λ w. Some (reply_in w.form w.reply) };

    fn fmt<W: fmt::Write>(&self, f: &mut fmt::Formatter<W>) -> fmt::Result {
        match (self.form, self.reply) {
            (form, Reply::Absent) => write!(f, "{}", none_in(form)),
            (Form::Json, Reply::Wrong) => write!(f, "{}", WRONG_JSON),
            (Form::Json, Reply::BadQuestion) => write!(f, "{}", BAD_QUESTION_JSON),
            (_, reply) => write!(f, "{reply}"),
        }
    }
}

/// The JSON of a wrong block.
const WRONG_JSON: &str = "{\"error\":\"wrong block\"}";

/// The JSON of a bad question.
const BAD_QUESTION_JSON: &str = "{\"error\":\"bad question\"}";
