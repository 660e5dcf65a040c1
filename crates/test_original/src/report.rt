//! What all lines show, a tally for each kind.
use crate::found::{Count, Difference, Found};
use std::alloc::{AllocError, Global};
use std::io;

/// How many differences are printed.
const MOST_PRINTED: usize = 10;

/// What the lines of a kind show.
#[derive(Drop)]
struct Tally<'a> {
    kind: &'a str,
    lines: u64,
    count: Count,
}

impl<'a> Tally<'a> {
    /// What one line shows.
    fn of(found: &Found<'a>) -> Tally<'a> {
        Tally {
            kind: found.kind,
            lines: 1,
            count: found.count,
        }
    }

    /// Adds what one more line shows.
    fn add(&mut self, found: &Found<'a>) {
        self.lines = self.lines.saturating_add(1);
        self.count.add(found.count);
    }
}

/// What all lines show.
#[derive(Drop)]
pub struct Report<'a> {
    tallies: Vec<Tally<'a>>,
    at_length: Count,
    differences: Vec<Difference<'a>>,
}

impl<'a> Report<'a> {
    /// No line yet.
    pub fn new(alloc: Global) -> Report<'a> {
        Report {
            tallies: Vec::new(alloc),
            at_length: Count::NONE,
            differences: Vec::new(alloc),
        }
    }

    /// Adds what a line shows, and its differences until enough are there to be printed.
    pub fn add(&mut self, found: Found<'a>) -> Result<(), AllocError> {
        self.tally(&found)?;
        self.at_length.add(found.at_length);
        for difference in found.differences.iter() {
            if self.differences.len() < MOST_PRINTED {
                self.differences.push(*difference)?;
            }
        }
        Ok(())
    }

    /// Adds what a line shows to the tally of its kind.
    fn tally(&mut self, found: &Found<'a>) -> Result<(), AllocError> {
        match self
            .tallies
            .iter()
            .position(|tally| tally.kind == found.kind)
        {
            Some(position) => self.tallies[position].add(found),
            None => self.tallies.push(Tally::of(found))?,
        }
        Ok(())
    }

    /// Whether nothing differs.
    pub fn is_clean(&self) -> bool {
        self.at_length.differ == 0 && self.tallies.iter().all(|tally| tally.count.differ == 0)
    }

    /// Prints the differences, as far as they are kept.
    fn print_differences(&self, rt: &impl Print) -> io::Result<()> {
        for difference in self.differences.iter() {
            let Difference {
                line,
                kind,
                argument,
                why,
            } = *difference;
            println!(rt; "line {line}: {kind} {argument}: {why}")?;
        }
        Ok(())
    }

    /// Prints the differences, as far as they are kept, a line for each kind, and one for the ranks at the exact
    /// length.
    pub fn print(&self, rt: &impl Print) -> io::Result<()> {
        self.print_differences(rt)?;
        for tally in self.tallies.iter() {
            let Tally { kind, lines, count } = tally;
            let Count { answers, differ } = count;
            println!(rt; "{kind} {lines} lines, {answers} answers, {differ} differ")?;
        }
        let Count { answers, differ } = self.at_length;
        println!(rt;
            "at the exact length, where theirs is -: {answers} ranks, {differ} differ from the total"
        )
    }
}
