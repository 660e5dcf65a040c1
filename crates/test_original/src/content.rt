//! The words and the bytes that the lines are about.
ghost use Rattle.std.specs.Prelude.{IfOk};
ghost use Rattle.bitm.specs.Bits.{IsShort};

use crate::fault::Fault;
use crate::found::Found;
use crate::text;
use crate::text::Base;
use std::alloc::Global;

/// The number of bits, and how many of them are 1 bits, or 0 bits.
#[derive(Clone, Copy)]
pub struct Totals {
    pub len: usize,
    pub items: u64,
    /// Whether the items are the ones.
    pub of_ones: bool,
}

impl Totals {
    /// The total where the position is the exact length.
    pub fn at(self, position: usize) -> Option<u64> {
        if position == self.len {
            Some(self.items)
        } else {
            None
        }
    }
}

/// What the lines read so far leave to the next ones.
#[derive(Drop)]
pub struct State<'a> {
    /// What the words are called; `None` where there are none.
    name: Option<&'a str>,
    words: Vec<u64>,
    /// The number of the words' 1 bits, once a line has it.
    ones: Option<u64>,
    bytes: Vec<u8>,
}

impl<'a> State<'a> {
    /// No words and no bytes.
    pub fn new(alloc: Global) -> State<'a> {
        State {
            name: None,
            words: Vec::new(alloc),
            ones: None,
            bytes: Vec::new(alloc),
        }
    }

    /// Takes the words of a line; there are none where that fails.
    pub fn set_content(
        &mut self,
        alloc: Global,
        line: &'a str,
        found: &mut Found<'a>,
    ) -> Result<(), Fault> {
        self.name = None;
        self.ones = None;
        let (name, items) = text::first_word(line);
        let (count, items) = text::first_word(items);
        self.words = text::list(alloc, items, Base::Hexadecimal)?;
        found.compare(name, Base::Decimal, Some(self.words.len() as u64), count)?;
        self.name = Some(name);
        Ok(())
    }

    /// Takes the number of 1 bits of a line, which has to name the words.
    pub fn set_ones(&mut self, line: &'a str) -> Result<(), Fault> {
        let (_, total) = self.content(line)?;
        self.ones = Some(text::number(total, Base::Decimal)?);
        Ok(())
    }

    /// The number of bits, and how many of them are 1 bits, which a line has to have said, or 0 bits.
    pub fn totals(&self, of_ones: bool) -> Result<Totals, Fault> {
        let len = self.words.len().checked_mul(64).ok_or(Fault::Condition)?;
        let ones = self.ones.ok_or(Fault::NoTotal)?;
        let zeros = (len as u64).checked_sub(ones);
        Ok(Totals {
            len,
            items: if of_ones {
                ones
            } else {
                zeros.ok_or(Fault::Malformed)?
            },
            of_ones,
        })
    }

    /// Takes the bytes of a line; none are left where that fails.
    pub fn set_bytes(&mut self, alloc: Global, line: &str) -> Result<(), Fault> {
        self.bytes = Vec::new(alloc);
        self.bytes = text::byte_list(alloc, line)?;
        Ok(())
    }

    /// The words of the name that a line starts with, and the rest of the line.
    pub fn content(&self, line: &'a str) -> Result<(&[u64], &'a str), Fault>
        ensures { IfOk result (λ found. IsShort found.0.now) }
    {
        let (name, rest) = text::first_word(line);
        match self.name {
            Some(known) if known == name => {
                if self.words.len() < 1 << 58 {
                    Ok((self.words.as_slice(), rest))
                } else {
                    Err(Fault::Condition)
                }
            }
            _ => Err(Fault::OtherContent),
        }
    }

    /// The bytes.
    pub fn bytes(&self) -> &[u8] {
        self.bytes.as_slice()
    }
}
