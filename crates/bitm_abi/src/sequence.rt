//! A sequence as C passes it, and as the library takes it.
ghost use Rattle.std.specs.Prelude.{SomeIff};
ghost use Rattle.bitm_abi.specs.Sequence.{sequence_parts, IsListReported, IsSequenceSized};

use crate::answer::{BAD_SIZE, NONE, OK, WRONG};
use elias_fano_view::{ListAnswer, SequenceView};
use tables_view::TablesView;

/// A sequence in the caller's memory: for C two numbers and five pairs of a pointer and a length.
#[repr(C)]
#[derive(Clone, Copy)]
pub struct Sequence<'a> {
    /// The number of numbers.
    pub len: usize,
    /// The number of low bits of each number.
    pub width: u64,
    /// The low bits of each number.
    pub low: &'a [u64],
    /// The words of the high bits.
    pub words: &'a [u64],
    /// The upper table of these words.
    pub upper: &'a [usize],
    /// The lower table of these words.
    pub lower: &'a [u64],
    /// The hints of these words, or none.
    pub hints: &'a [u64],
}

/// The lengths of the parts of a sequence.
#[repr(C)]
#[derive(Clone, Copy)]
pub struct SequenceLens {
    /// The number of low bits of each number.
    pub width: u64,
    /// The number of words of the low bits.
    pub low_len: u64,
    /// The number of words of the high bits.
    pub words_len: u64,
    /// The length of the upper table.
    pub upper_len: u64,
    /// The length of the lower table.
    pub lower_len: u64,
}

impl<'a> Sequence<'a> {
    /// The parts as the library queries them; `None` exactly where a length is not right.
    #[inline(always)]
    pub fn borrowed(&self) -> Option<SequenceView<'a>>
        ensures { SomeIff result (IsSequenceSized self.now) (sequence_parts self.now) }
    {
        let upper = TablesView::over(self.words, self.upper, self.lower)?;
        if self.width > 63 {
            return None;
        }
        let parts = SequenceView::over(self.len, self.width as u8, self.low, upper)?;
        parts.with_hints(self.hints)
    }
}

/// Reports how many numbers of a list were written, and by the status why no more.
#[inline(always)]
pub fn report_list_answer(answer: ListAnswer, len: usize, written: &mut usize) -> u32
    ensures { IsListReported answer len result written.old written.new }
{
    let (count, status) = match answer {
        ListAnswer::All => (len, OK),
        ListAnswer::AbsentAt(at) => (at, NONE),
        ListAnswer::WrongAt(at) => (at, WRONG),
        ListAnswer::WrongLength => return BAD_SIZE,
    };
    *written = count;
    status
}
