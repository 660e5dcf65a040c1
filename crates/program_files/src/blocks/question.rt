//! The question of a line.
ghost use Rattle.std.specs.Prelude.{◌≡◌, option_map};
ghost use Rattle.program_base.specs.Text.{parts_left};
ghost use Rattle.program_files.specs.Question.{list_word, near_word, pair_of, question_of, tree_word};

use program_base::text::digits::decimal;
use program_base::text::{first_part, only_part};

/// The first word of a question.
#[derive(Clone, Copy)]
pub(crate) enum Word {
    Get,
    Rank,
    Rank0,
    Select,
    Select0,
    Next,
    Next0,
    Previous,
    Previous0,
    Parent,
    Child,
    ChildRank,
    Degree,
    NextSibling,
    PreviousSibling,
}

/// The question of a line: a word and one number, or two.
#[derive(Clone, Copy)]
pub(crate) enum Question {
    /// One number.
    One(Word, u64),
    /// Two numbers.
    Two(Word, u64, u64),
}

/// The word of this name for a bit or a number, or a count; else what `near_word` says.
#[tactic(auto, unfolding(crate::specs::Question::list_word))]
fn list_word(name: &[u8]) -> Option<Word>
    ensures { result ≡ list_word name.now }
{
    if name == b"get".as_slice() {
        Some(Word::Get)
    } else if name == b"rank".as_slice() {
        Some(Word::Rank)
    } else if name == b"rank0".as_slice() {
        Some(Word::Rank0)
    } else if name == b"select".as_slice() {
        Some(Word::Select)
    } else if name == b"select0".as_slice() {
        Some(Word::Select0)
    } else {
        near_word(name)
    }
}

/// The word of this name for what is beside a position or a value; else what `tree_word` says.
#[tactic(auto, unfolding(crate::specs::Question::near_word))]
fn near_word(name: &[u8]) -> Option<Word>
    ensures { result ≡ near_word name.now }
{
    if name == b"next".as_slice() {
        Some(Word::Next)
    } else if name == b"next0".as_slice() {
        Some(Word::Next0)
    } else if name == b"previous".as_slice() {
        Some(Word::Previous)
    } else if name == b"previous0".as_slice() {
        Some(Word::Previous0)
    } else {
        tree_word(name)
    }
}

/// The word of this name for a node of a tree or the number of its children, if there is one.
#[tactic(auto, unfolding(crate::specs::Question::tree_word))]
fn tree_word(name: &[u8]) -> Option<Word>
    ensures { result ≡ tree_word name.now }
{
    if name == b"parent".as_slice() {
        Some(Word::Parent)
    } else if name == b"child".as_slice() {
        Some(Word::Child)
    } else if name == b"child_rank".as_slice() {
        Some(Word::ChildRank)
    } else if name == b"degree".as_slice() {
        Some(Word::Degree)
    } else if name == b"next_sibling".as_slice() {
        Some(Word::NextSibling)
    } else if name == b"previous_sibling".as_slice() {
        Some(Word::PreviousSibling)
    } else {
        None
    }
}

/// The question of a line, or `None` where it is none.
pub(crate) fn asked(line: &[u8]) -> Option<Question>
    ensures { result ≡ question_of line.now }
{
    let (name, rest) = first_part(line, b' ');
    let word = list_word(name)?;
    match only_part(rest) {
        Some(number) => {
            let number = decimal(number)?;
            Some(Question::One(word, number))
        }
        None => {
            let (first, second) = pair(rest)?;
            Some(Question::Two(word, first, second))
        }
    }
}

/// The two numbers that just two parts write.
fn pair(rest: Option<&[u8]>) -> Option<(u64, u64)>
    ensures { result ≡ pair_of (parts_left rest.entry) }
{
    let (first, rest) = first_part(rest?, b' ');
    let first = decimal(first)?;
    let second = decimal(only_part(rest)?)?;
    Some((first, second))
}
