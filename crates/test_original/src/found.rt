//! What a line shows: how many answers were compared, and which of them differ.
use crate::fault::Fault;
use crate::text;
use crate::text::Base;
use std::alloc::Global;

/// The query whose answer differs from the original's, or nothing where a line could not be replayed, why it counts as
/// a difference, and the kind of its line with the line's number, the first being 1.
#[derive(Clone, Copy)]
pub struct Difference<'a> {
    pub line: usize,
    pub kind: &'a str,
    pub argument: &'a str,
    pub why: &'a str,
}

/// How many answers were compared, and how many of them differ.
#[derive(Clone, Copy)]
pub struct Count {
    pub answers: u64,
    pub differ: u64,
}

impl Count {
    /// No answer yet.
    pub const NONE: Count = Count {
        answers: 0,
        differ: 0,
    };

    /// Adds the given number.
    pub fn add(&mut self, more: Count) {
        self.answers = self.answers.saturating_add(more.answers);
        self.differ = self.differ.saturating_add(more.differ);
    }

    /// Adds an answer.
    fn add_answer(&mut self, differs: bool) {
        self.add(Count {
            answers: 1,
            differ: u64::from(differs),
        });
    }
}

/// A list of numbers.
#[derive(Clone, Copy)]
pub enum List<'l> {
    Words(&'l [u64]),
    Sizes(&'l [usize]),
    Samples(&'l [u32]),
    Bytes(&'l [u8]),
}

impl<'l> List<'l> {
    /// How many numbers there are.
    pub fn len(self) -> usize {
        match self {
            List::Words(words) => words.len(),
            List::Sizes(sizes) => sizes.len(),
            List::Samples(samples) => samples.len(),
            List::Bytes(bytes) => bytes.len(),
        }
    }

    /// The number at an index.
    fn get(self, at: usize) -> Option<u64> {
        match self {
            List::Words(words) => Some(*words.get(at)?),
            List::Sizes(sizes) => Some(*sizes.get(at)? as u64),
            List::Samples(samples) => Some(u64::from(*samples.get(at)?)),
            List::Bytes(bytes) => Some(u64::from(*bytes.get(at)?)),
        }
    }
}

/// What a line has shown so far.
#[derive(Drop)]
pub struct Found<'a> {
    pub kind: &'a str,
    line: usize,
    /// The answers that have to be theirs, and faults.
    pub count: Count,
    /// The ranks at the exact length, which have to be totals.
    pub at_length: Count,
    pub differences: Vec<Difference<'a>>,
}

impl<'a> Found<'a> {
    /// Nothing yet of a line of a kind.
    pub fn new(alloc: Global, kind: &'a str, line: usize) -> Found<'a> {
        Found {
            kind,
            line,
            count: Count::NONE,
            at_length: Count::NONE,
            differences: Vec::new(alloc),
        }
    }

    /// Counts a fault, and keeps it where there is memory for it.
    pub fn fails(&mut self, fault: Fault) {
        self.count.add(Count {
            answers: 0,
            differ: 1,
        });
        self.keep("", fault.text());
    }

    /// Keeps a difference where there is memory for it.
    fn keep(&mut self, argument: &'a str, why: &'a str) {
        let _ = self.differences.push(Difference {
            line: self.line,
            kind: self.kind,
            argument,
            why,
        });
    }

    /// Compares two values of an answer, or of an item of it.
    pub fn compare_values(&mut self, argument: &'a str, ours: Option<u64>, theirs: Option<u64>) {
        self.count.add_answer(ours != theirs);
        if ours != theirs {
            self.keep(argument, "differs from theirs");
        }
    }

    /// Compares an answer with the one that a word writes.
    pub fn compare(
        &mut self,
        argument: &'a str,
        base: Base,
        ours: Option<u64>,
        theirs: &str,
    ) -> Result<(), Fault> {
        let theirs = text::answer(theirs, base)?;
        self.compare_values(argument, ours, theirs);
        Ok(())
    }

    /// Compares a rank with its answer, or with the total where it is the rank of the exact length, which has no
    /// answer.
    pub fn compare_rank(
        &mut self,
        argument: &'a str,
        ours: Option<usize>,
        total: Option<u64>,
        theirs: &str,
    ) -> Result<(), Fault> {
        let ours = wide(ours);
        if total.is_none() || theirs != "-" {
            return self.compare(argument, Base::Decimal, ours, theirs);
        }
        self.at_length.add_answer(ours != total);
        if ours != total {
            self.keep(argument, "is not the total");
        }
        Ok(())
    }

    /// Compares the items of a list at indices with the answers of pairs.
    pub fn compare_entries(&mut self, pairs: &'a str, list: List<'_>) -> Result<(), Fault> {
        for pair in pairs.split_ascii_whitespace() {
            let (argument, theirs) = text::parts(pair, ":")?;
            let ours = list.get(text::position(argument)?);
            self.compare(argument, Base::Hexadecimal, ours, theirs)?;
        }
        Ok(())
    }

    /// Compares a list, item by item, with the one that a text writes: where one is longer, its items differ from
    /// `None`.
    pub fn compare_list(
        &mut self,
        alloc: Global,
        argument: &'a str,
        base: Base,
        ours: List<'_>,
        theirs: &str,
    ) -> Result<(), Fault> {
        let theirs = text::list(alloc, theirs, base)?;
        for at in 0..ours.len().max(theirs.len()) {
            let their_item = theirs.get(at).copied();
            self.compare_values(argument, ours.get(at), their_item);
        }
        Ok(())
    }
}

/// The same number in 64 bits.
pub fn wide(number: Option<usize>) -> Option<u64> {
    Some(number? as u64)
}
